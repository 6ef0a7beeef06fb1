// The bench file (01, "Bench file, program and C entry"), written from columns. Its laws say that reader and writer are each the other's
// inverse.

#![tactic(auto)]

mod write;

ghost use Rattle.std.specs.Prelude.{◌≡◌};
ghost use Rattle.file.specs.Stated.{room_of};
ghost use Rattle.file_writer.specs.Writing.{columns_of, write_into};

use file::Room;

// The tables of a program, column by column.
#[derive(Clone, Copy)]
pub struct Tables<'a> {
    pub list_ids: &'a [u16],
    pub list_counts: &'a [u16],
    pub list_flags: &'a [u16],
    pub function_ids: &'a [u16],
    pub parameters: &'a [u16],
    pub maxima: &'a [u16],
    pub offsets: &'a [usize],
    pub lengths: &'a [usize],
    pub type_ids: &'a [u16],
    pub descriptor_functions: &'a [u16],
    pub entries: &'a [u16],
    pub code: &'a [u8],
}

// Why no file is written.
#[derive(Clone, Copy, PartialEq, Eq, Debug)]
pub enum Unwritten {
    // 31, for columns that differ in length, a count above its limit, an offset or length above 65,535.
    Refused { number: u32 },
    // In the buffer, or within 65,536 bytes.
    NoRoom,
}

impl Tables<'_> {
    // As file's `Columns::room`.
    fn room(&self) -> Room
        ensures { result ≡ room_of (columns_of self.now) }
    {
        Room {
            list_ids: self.list_ids.len(),
            list_counts: self.list_counts.len(),
            list_flags: self.list_flags.len(),
            function_ids: self.function_ids.len(),
            parameters: self.parameters.len(),
            maxima: self.maxima.len(),
            offsets: self.offsets.len(),
            lengths: self.lengths.len(),
            type_ids: self.type_ids.len(),
            descriptor_functions: self.descriptor_functions.len(),
            entries: self.entries.len(),
            code: self.code.len(),
        }
    }
}

// Writes a program as a bench file into a lent buffer: the file's length. Nothing is written otherwise.
pub fn write_file(out: &mut [u8], pool: u16, tables: &Tables<'_>) -> Result<usize, Unwritten>
    ensures { (result, out.new) ≡ write_into (record { pool = pool; tables = columns_of tables.now }) out.old }
{
    if write::refused(tables) {
        return Err(Unwritten::Refused { number: 31 });
    }
    let mut buffer = [0u8; 65536];
    let size = write::write_all(&mut buffer, pool, tables).ok_or(Unwritten::NoRoom)?;
    write::deliver(out, &buffer, size)
}
