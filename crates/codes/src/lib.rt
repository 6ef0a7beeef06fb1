// The code list: three lent columns (id, argument count, borrows-a-buffer flag), a row for each id, the ids rising.

#![tactic(auto)]

ghost use Rattle.std.specs.Prelude.{◌≡◌, ℕ, true, false, cond, leb, ◌+◌, ◌≤◌, ◌<◌, ◌%◌, length};
ghost use Rattle.codes.specs.Rows.{low_at, faulty, rows_of};
ghost use Rattle.codes.specs.Lookup.{halved_of, looked_up, entry_at, noted, noted_for, hinted_of, hinted_up};

// The list's columns.
#[derive(Clone, Copy)]
pub struct CodeList<'a> {
    pub ids: &'a [u16],
    pub counts: &'a [u16],
    pub flags: &'a [u16],
}

// What the list says of an id: its argument count and its flag.
#[derive(Clone, Copy, PartialEq, Eq, Debug)]
pub struct Listed {
    pub count: u16,
    pub flag: u16,
}

// The rows that are tested at once.
const BLOCK: usize = 64;

// Whether none of the rows from `first` to before `end` is faulty. No early end: the compiler then looks at many rows at once.
fn in_order(ids: &[u16], flags: &[u16], first: usize, end: usize) -> bool
    requires rows { (0 < first) × ((first ≤ end) × (end ≤ length ids.now)) }
    requires flags { length flags.now ≡ length ids.now }
    ensures sound { result ≡ true → (k : ℕ) → first ≤ k → k < end → faulty ids.now flags.now k ≡ false }
    ensures whole { ((k : ℕ) → first ≤ k → k < end → faulty ids.now flags.now k ≡ false) → result ≡ true }
{
    let mut fault = false;
    for i in first..end {
        fault |= ids[i] <= ids[i - 1];
        fault |= flags[i] > 1;
    }
    !fault
}

// So many rows at the front, in blocks, are in order: where columns differ in length, or a block is faulty, no more is said.
fn sound_rows(ids: &[u16], flags: &[u16]) -> usize
    ensures rows { result ≤ length ids.now }
    ensures sound { (k : ℕ) → k < result → faulty ids.now flags.now k ≡ false }
{
    if ids.is_empty() || ids.len() != flags.len() || flags[0] > 1 {
        return 0;
    }
    let mut row = 1;
    while BLOCK <= ids.len() - row {
        if !in_order(ids, flags, row, row + BLOCK) {
            return row;
        }
        row += BLOCK;
    }
    row
}

// The least id that a row may have.
fn least(ids: &[u16], row: usize) -> u32
    requires { row ≤ length ids.now }
    ensures { result ≡ low_at ids.now row }
{
    if row == 0 { 0 } else { ids[row - 1] as u32 + 1 }
}

// Refusal 34: ids not rising, or a flag above 1; the error is the first faulty row. `low` is the least id that the row may have.
pub fn check_rows(ids: &[u16], flags: &[u16]) -> Result<(), usize>
    ensures { result ≡ rows_of ids.now flags.now }
{
    let first = sound_rows(ids, flags);
    let mut low = least(ids, first);
    for i in first..ids.len() {
        let id = ids[i] as u32;
        if id < low {
            return Err(i);
        }
        let flag = cells::at(flags, i);
        if flag > 1 {
            return Err(i); // 256 too, whose low byte is 0
        }
        low = id + 1;
    }
    Ok(())
}

// Where the half begins that may have the id: a product in place of a choice, since the compiler makes a jump of a choice, and no
// processor can guess which half it is. The quotient is 1 where the id in the middle is not above `id`, else 0.
fn later(middle: u16, id: u16, low: usize, half: usize) -> usize
    requires { low + half < 18446744073709551616 }
    ensures { result ≡ cond (leb middle id) (low + half) low }
{
    low + half * ((id as usize + 65536 - middle as usize) / 65536)
}

// The place of an id, by halving: every lookup in as many rows takes the same turns. No `binary_search`: `halved_of` says what halving finds in any
// columns, rising or not, and the library's search says where an id stands in rising ones.
pub fn find(ids: &[u16], id: u16) -> Option<usize>
    ensures { result ≡ halved_of ids.now id }
{
    let mut lo: usize = 0;
    let mut size = ids.len();
    while 1 < size {
        let half = size / 2;
        lo = later(ids[lo + half], id, lo, half);
        size = size - half;
    }
    if lo < ids.len() {
        if ids[lo] == id {
            return Some(lo);
        }
    }
    None
}

// What the list says at a place.
fn entry_at(list: &CodeList<'_>, place: Option<usize>) -> Option<Listed>
    ensures { result ≡ entry_at list.now.counts.now list.now.flags.now place }
{
    let row = place?;
    Some(Listed {
        count: cells::at(list.counts, row),
        flag: cells::at(list.flags, row),
    })
}

// The two lookups of builtin.rs over the list: the count and the flag of an id.
pub fn lookup(list: &CodeList<'_>, id: u16) -> Option<Listed>
    ensures { result ≡ looked_up list.now.ids.now list.now.counts.now list.now.flags.now id }
{
    entry_at(list, find(list.ids, id))
}

// The cell of an id's hint.
fn hint_cell(id: u16) -> usize
    ensures { result ≡ id % 8192 }
{
    id as usize % 8192
}

// A row's number as a hint: its low 16 bits, all that a list within 01's limit has.
fn hint_of(row: usize) -> u16
    ensures { result ≡ row % 65536 }
{
    (row % 65536) as u16
}

// Notes for each row, at the cell of its id, which row it is. From the last row to the first: of two ids with one cell the smaller keeps it, and
// the exported ids are small ones. Cells of no id stay as they were.
pub fn note_rows(hints: &mut [u16], ids: &[u16])
    ensures { hints.new ≡ noted ids.now hints.old }
{
    for row in (0..ids.len()).rev() {
        cells::put(hints, hint_cell(ids[row]), hint_of(row));
    }
}

// Hints where the code has bytes enough to hold lookups that they pay for: every row is noted, be its id asked for or not, and short programs
// were slower with hints.
pub fn note_for(hints: &mut [u16], ids: &[u16], bytes: usize)
    ensures { hints.new ≡ noted_for bytes ids.now hints.old }
{
    if ids.len() / 4 + 256 <= bytes {
        note_rows(hints, ids);
    }
}

// The place of an id: the hinted row if it has the id, else by halving. A wrong hint costs time and nothing else.
pub fn find_hinted(hints: &[u16], ids: &[u16], id: u16) -> Option<usize>
    ensures { result ≡ hinted_of hints.now ids.now id }
{
    let row = cells::at(hints, hint_cell(id)) as usize;
    if row < ids.len() {
        if ids[row] == id {
            return Some(row);
        }
    }
    find(ids, id)
}

// `lookup`, with hints that may hold anything.
pub fn look_up(hints: &[u16], list: &CodeList<'_>, id: u16) -> Option<Listed>
    ensures { result ≡ hinted_up hints.now list.now.ids.now list.now.counts.now list.now.flags.now id }
{
    entry_at(list, find_hinted(hints, list.ids, id))
}
