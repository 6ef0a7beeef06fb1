// Writing a bench file: number after number, then the code. The whole file is made in a buffer of its own first, so that a refusal
// leaves the caller's as it was.
ghost use Rattle.std.specs.Prelude.{◌≡◌, get_or, map, Some};
ghost use Rattle.file.specs.Written.{row_at, rows_from};
ghost use Rattle.file_writer.specs.Writing.{columns_of, column_of, put_all, put_bytes, fit, counted, all_small, wrote_all, differ, uneven_room, refused_in, delivered};
ghost use Rattle.file.specs.Stated.{room_of};

use crate::{Tables, Unwritten};
use file::Room;

// A column of a table: a row takes a number of each, and they have two widths.
#[derive(Clone, Copy)]
enum Column<'a> {
    Narrow(&'a [u16]),
    Wide(&'a [usize]),
}

// A number of the machine's size, where it has a form.
#[tactic(auto, using(std::proofs::lemmas::Bool::Decides::nat_tests), unfolding(crate::specs::Writing::fit))]
fn narrow(n: usize) -> u16
    ensures { result ≡ fit n }
{
    u16::try_from(n).unwrap_or(0)
}

impl Column<'_> {
    fn number(&self, row: usize) -> u16
        ensures { result ≡ get_or (column_of self.now) row 0 }
    {
        match self {
            Column::Narrow(cells) => cells::at(cells, row),
            Column::Wide(cells) => narrow(cells::at(cells, row)),
        }
    }
}

// One number of each column.
fn put_row(buffer: &mut [u8], start: usize, columns: &[Column<'_>], row: usize) -> Option<usize>
    ensures { (result, buffer.new) ≡ put_all (Some start) (row_at (map column_of columns.now) row) buffer.old }
{
    let mut at = start;
    for column in columns {
        at = seven::write_number(column.number(row), buffer, at)?;
    }
    Some(at)
}

fn put_rows(buffer: &mut [u8], start: usize, columns: &[Column<'_>], count: usize) -> Option<usize>
    ensures { (result, buffer.new) ≡ put_all (Some start) (rows_from (map column_of columns.now) count 0) buffer.old }
{
    let mut at = start;
    for row in 0..count {
        at = put_row(buffer, at, columns, row)?;
    }
    Some(at)
}

// A table's count, and its numbers row by row.
fn put_table(buffer: &mut [u8], start: usize, columns: &[Column<'_>], count: usize) -> Option<usize>
    ensures { (result, buffer.new) ≡ put_all (Some start) (counted (map column_of columns.now) count) buffer.old }
{
    let rows = narrow(count);
    let at = seven::write_number(rows, buffer, start)?;
    put_rows(buffer, at, columns, usize::from(rows))
}

fn put_bytes(buffer: &mut [u8], at: usize, bytes: &[u8]) -> Option<usize>
    ensures { (result, buffer.new) ≡ put_bytes (Some at) bytes.now buffer.old }
{
    if buffer.len() < at || buffer.len() - at < bytes.len() {
        return None;
    }
    let end = at + bytes.len();
    buffer[at..end].copy_from_slice(bytes);
    Some(end)
}

// The whole file: the numbers of each table behind its count, then the code.
pub fn write_all(buffer: &mut [u8], pool: u16, tables: &Tables<'_>) -> Option<usize>
    ensures { (result, buffer.new) ≡ wrote_all pool (columns_of tables.now) buffer.old }
{
    let at = seven::write_number(pool, buffer, 0)?;
    let rows = [
        Column::Narrow(tables.list_ids),
        Column::Narrow(tables.list_counts),
        Column::Narrow(tables.list_flags),
    ];
    let at = put_table(buffer, at, &rows, tables.list_ids.len())?;
    let functions = [
        Column::Narrow(tables.function_ids),
        Column::Narrow(tables.parameters),
        Column::Narrow(tables.maxima),
        Column::Wide(tables.offsets),
        Column::Wide(tables.lengths),
    ];
    let at = put_table(buffer, at, &functions, tables.function_ids.len())?;
    let descriptors = [
        Column::Narrow(tables.type_ids),
        Column::Narrow(tables.descriptor_functions),
    ];
    let at = put_table(buffer, at, &descriptors, tables.type_ids.len())?;
    let entries = [Column::Narrow(tables.entries)];
    let at = put_table(buffer, at, &entries, tables.entries.len())?;
    let start = seven::write_number(narrow(tables.code.len()), buffer, at)?;
    put_bytes(buffer, start, tables.code)
}

// Every cell has a form.
fn all_small(column: &[usize]) -> bool
    ensures { result ≡ all_small column.now }
{
    column.iter().all(|n| *n < 65536)
}

#[tactic(auto, using(std::proofs::lemmas::Bool::Decides::nat_tests), unfolding(crate::specs::Writing::differ))]
fn differ(limit: usize, a: usize, b: usize, c: usize) -> bool
    ensures { result ≡ differ limit a b c }
{
    limit < a || a != b || a != c
}

// Columns of one table differ in length, or there are too many rows.
#[tactic(auto, using(std::proofs::lemmas::Bool::Decides::nat_tests), unfolding(crate::specs::Writing::uneven_room))]
fn uneven(room: &Room) -> bool
    ensures { result ≡ uneven_room room.now }
{
    differ(6144, room.list_ids, room.list_counts, room.list_flags)
        || differ(128, room.function_ids, room.parameters, room.maxima)
        || differ(128, room.function_ids, room.offsets, room.lengths)
        || differ(256, room.type_ids, room.descriptor_functions, room.type_ids)
        || 32 < room.entries
        || 12288 < room.code
}

// What gives 31.
#[tactic(auto, unfolding(crate::specs::Writing::refused_in))]
pub fn refused(tables: &Tables<'_>) -> bool
    ensures { result ≡ refused_in (room_of (columns_of tables.now)) tables.now.offsets.now tables.now.lengths.now }
{
    uneven(&tables.room()) || !all_small(tables.offsets) || !all_small(tables.lengths)
}

// The file from its buffer to the caller's.
pub fn deliver(out: &mut [u8], buffer: &[u8], size: usize) -> Result<usize, Unwritten>
    ensures { (result, out.new) ≡ delivered buffer.now size out.old }
{
    if buffer.len() < size || out.len() < size {
        return Err(Unwritten::NoRoom);
    }
    out[..size].copy_from_slice(&buffer[..size]);
    Ok(size)
}
