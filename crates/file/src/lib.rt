// The bench file (01, "Bench file, program and C entry"), read into lent columns. One pass reads all numbers into cells of its
// own, a second fills the columns, so that a refused file leaves them as they were.

#![tactic(auto)]

mod fill;
mod lent;
mod measure;

ghost use Rattle.std.specs.Prelude.{◌≡◌};
ghost use Rattle.file.specs.Stated.{SameColumns, columns_in, room_of, sizes_in, outcome_of, read_into, leaves};

use measure::Numbers;
use std::fmt;

// Why a file is refused: 01's number, and the place.
#[derive(Clone, Copy, PartialEq, Eq, Debug)]
pub struct Refused {
    pub number: u32,
    pub place: usize,
}

// As the programs print it.
impl fmt::Display for Refused {
    fn fmt<W: fmt::Write>(&self, f: &mut fmt::Formatter<W>) -> fmt::Result {
        write!(f, "INPUT {} {}", self.number, self.place)
    }
}

// A table of the file: how many rows, the place of the first, and the place after the last.
#[derive(Clone, Copy, PartialEq, Eq, Debug)]
pub struct Table {
    pub count: u16,
    pub start: usize,
    pub end: usize,
}

// The tables in the order of the file. The pool and the code length are counts without rows.
#[derive(Clone, Copy, PartialEq, Eq, Debug)]
pub struct Layout {
    pub pool: Table,
    pub rows: Table,
    pub functions: Table,
    pub descriptors: Table,
    pub entries: Table,
    pub code: Table,
}

// The columns that a caller lends, of at least 6,144, 128, 256, 32 and 12,288 cells.
#[derive(Drop)]
pub struct Columns<'a> {
    pub list_ids: &'a mut [u16],
    pub list_counts: &'a mut [u16],
    pub list_flags: &'a mut [u16],
    pub function_ids: &'a mut [u16],
    pub parameters: &'a mut [u16],
    pub maxima: &'a mut [u16],
    pub offsets: &'a mut [usize],
    pub lengths: &'a mut [usize],
    pub type_ids: &'a mut [u16],
    pub descriptor_functions: &'a mut [u16],
    pub entries: &'a mut [u16],
    pub code: &'a mut [u8],
}

// How many cells each column has.
#[derive(Clone, Copy, PartialEq, Eq, Debug)]
pub struct Room {
    pub list_ids: usize,
    pub list_counts: usize,
    pub list_flags: usize,
    pub function_ids: usize,
    pub parameters: usize,
    pub maxima: usize,
    pub offsets: usize,
    pub lengths: usize,
    pub type_ids: usize,
    pub descriptor_functions: usize,
    pub entries: usize,
    pub code: usize,
}

// What stands at the front of the columns after a file was read.
#[derive(Clone, Copy, PartialEq, Eq, Debug)]
pub struct Sizes {
    pub pool: u16,
    pub rows: usize,
    pub functions: usize,
    pub descriptors: usize,
    pub entries: usize,
    pub code: usize,
}

impl Columns<'_> {
    // Twelve lengths, here and in file_writer's `Tables`, which lends `&`: a trait for both would name the twelve again.
    fn room(&self) -> Room
        ensures { result ≡ room_of (columns_in self.now) }
    {
        Room {
            list_ids: self.list_ids.len(),
            list_counts: self.list_counts.len(),
            list_flags: self.list_flags.len(),
            function_ids: self.function_ids.len(),
            parameters: self.parameters.len(),
            maxima: self.maxima.len(),
            offsets: self.offsets.len(),
            lengths: self.lengths.len(),
            type_ids: self.type_ids.len(),
            descriptor_functions: self.descriptor_functions.len(),
            entries: self.entries.len(),
            code: self.code.len(),
        }
    }
}

#[tactic(auto, unfolding(crate::specs::Stated::sizes_in))]
fn sizes_of(layout: &Layout) -> Sizes
    ensures { result ≡ sizes_in layout.now }
{
    Sizes {
        pool: layout.pool.count,
        rows: usize::from(layout.rows.count),
        functions: usize::from(layout.functions.count),
        descriptors: usize::from(layout.descriptors.count),
        entries: usize::from(layout.entries.count),
        code: usize::from(layout.code.count),
    }
}

// Reads a bench file into lent columns.
pub fn read_file(columns: &mut Columns<'_>, file: &[u8]) -> Result<Sizes, Refused>
    ensures same { SameColumns columns.old columns.new }
    ensures outcome { result ≡ outcome_of (read_into (columns_in columns.old) file.now) }
    ensures left { columns_in columns.new ≡ leaves (read_into (columns_in columns.old) file.now) (columns_in columns.old) }
{
    if lent::short(&columns.room()) {
        return Err(Refused {
            number: 30,
            place: 0,
        });
    }
    let mut numbers = Numbers {
        rows: [0; 18432],
        functions: [0; 640],
        descriptors: [0; 512],
        entries: [0; 32],
    };
    let layout = measure::measure(&mut numbers, file)?;
    fill::fill_columns(columns, &numbers, file, &layout);
    Ok(sizes_of(&layout))
}
