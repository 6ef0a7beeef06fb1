// The first pass: the numbers of each table of a bench file and where they stood, or the first refusal in reading order. They go into
// cells of its own, so that a refused file leaves no trace in the caller's columns.
ghost use Rattle.std.specs.Prelude.{◌≡◌, ◌-◌, ◌*◌, ◌≤◌, length, IfOk};
ghost use Rattle.file.specs.Numbers.{number_in, run_of, numbers};
ghost use Rattle.file.specs.Columns.{numbers_of_table, over};
ghost use Rattle.file.specs.Tables.{table_of, code_end, layout_of};
ghost use Rattle.file.specs.Measured.{Measured};

use crate::{Layout, Refused, Table};
use seven::{Misread, Number};

// The numbers of the four tables with rows, row by row, in the front of as many cells as 01 allows.
#[derive(Drop)]
pub struct Numbers {
    pub rows: [u16; 18432],
    pub functions: [u16; 640],
    pub descriptors: [u16; 512],
    pub entries: [u16; 32],
}

// The number at a place, or the refusal.
#[tactic(auto, unfolding(crate::specs::Numbers::number_in, crate::specs::Numbers::misread))]
fn number_at(file: &[u8], at: usize) -> Result<Number, Refused>
    ensures { result ≡ number_in file.now at }
{
    seven::read_number(file, at).map_err(|misread| match misread {
        Misread::Bad => Refused {
            number: 40,
            place: at,
        },
        Misread::Early => Refused {
            number: 41,
            place: file.len(),
        },
    })
}

// Numbers in a row from a place on, each into a cell: the place after them.
fn read_numbers(cells: &mut [u16], file: &[u8], start: usize) -> Result<usize, Refused>
    ensures run { result ≡ run_of (length cells.old) file.now start }
    ensures cells { IfOk result (λ _. cells.new ≡ numbers (length cells.old) file.now start) }
{
    let mut at = start;
    for cell in cells.iter_mut() {
        let number = number_at(file, at)?;
        *cell = number.n;
        at = number.next;
    }
    Ok(at)
}

// A count at a place, and its rows.
#[tactic(auto, using(std::proofs::lemmas::Bool::Decides::nat_tests), unfolding(crate::specs::Tables::table_of, crate::specs::Tables::on_count, crate::specs::Columns::numbers_of_table, crate::specs::Columns::over))]
fn table_at(
    cells: &mut [u16],
    file: &[u8],
    at: usize,
    limit: u16,
    width: u16,
) -> Result<Table, Refused>
    requires { limit * width ≤ length cells.old }
    ensures table { result ≡ table_of file.now at limit width }
    ensures cells { IfOk result (λ table. cells.new ≡ over (numbers_of_table file.now table width) cells.old) }
{
    let count = number_at(file, at)?;
    if limit < count.n {
        return Err(Refused {
            number: 31,
            place: 0,
        });
    }
    let size = usize::from(count.n) * usize::from(width);
    let end = read_numbers(&mut cells[..size], file, count.next)?;
    Ok(Table {
        count: count.n,
        start: count.next,
        end,
    })
}

// The code's bytes are all there, and none after them.
#[tactic(auto, using(std::proofs::lemmas::Bool::Decides::nat_tests), unfolding(crate::specs::Tables::code_end))]
fn ends(file: &[u8], code: &Table) -> Result<usize, Refused>
    ensures { result ≡ code_end file.now code.now }
{
    let left = file.len().saturating_sub(code.end);
    let needed = usize::from(code.count);
    if left < needed {
        return Err(Refused {
            number: 41,
            place: file.len(),
        });
    }
    if needed < left {
        return Err(Refused {
            number: 42,
            place: code.end + needed,
        });
    }
    Ok(code.end + needed)
}

// All numbers of the four tables, and where they stood.
#[tactic(auto, using(std::proofs::lemmas::Bool::Decides::nat_tests), unfolding(crate::specs::Tables::layout_of))]
pub fn measure(numbers: &mut Numbers, file: &[u8]) -> Result<Layout, Refused>
    ensures layout { result ≡ layout_of file.now }
    ensures numbers { IfOk result (λ layout. Measured file.now layout numbers.old numbers.new) }
{
    if 65536 < file.len() {
        return Err(Refused {
            number: 43,
            place: 65536,
        });
    }
    let pool = table_at(&mut [], file, 0, 65535, 0)?;
    let rows = table_at(&mut numbers.rows, file, pool.end, 6144, 3)?;
    let functions = table_at(&mut numbers.functions, file, rows.end, 128, 5)?;
    let descriptors = table_at(&mut numbers.descriptors, file, functions.end, 256, 2)?;
    let entries = table_at(&mut numbers.entries, file, descriptors.end, 32, 1)?;
    let code = table_at(&mut [], file, entries.end, 12288, 0)?;
    ends(file, &code)?;
    Ok(Layout {
        pool,
        rows,
        functions,
        descriptors,
        entries,
        code,
    })
}
