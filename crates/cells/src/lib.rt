// Lent columns of any cell, read and written at any place: past the end a read gives 0 and a write changes nothing, so no caller has anything to show.
#![tactic(auto)]

ghost use Rattle.std.specs.Prelude.{◌≡◌, length, get_or, set, take, drop};
ghost use Rattle.cells.specs.Zeros.{copies};

// A number that cells hold. A column can be filled with its zero.
pub trait Cell: Copy {
    ghost zero: { Self };

    fn zero() -> Self
        ensures { result ≡ zero };

    ghost fills: { Self.Clone.is_infallible zero };

    ghost filled: { (cell : Self) → Self.Clone.is_clone zero cell → cell ≡ zero };
}

impl Cell for u8 {
    ghost zero = { 0 };

    fn zero() -> u8 {
        0
    }

    ghost fills = { tt };

    ghost filled = { λ _ same. same };
}

impl Cell for u16 {
    ghost zero = { 0 };

    fn zero() -> u16 {
        0
    }

    ghost fills = { tt };

    ghost filled = { λ _ same. same };
}

impl Cell for u32 {
    ghost zero = { 0 };

    fn zero() -> u32 {
        0
    }

    ghost fills = { tt };

    ghost filled = { λ _ same. same };
}

impl Cell for usize {
    ghost zero = { 0 };

    fn zero() -> usize {
        0
    }

    ghost fills = { tt };

    ghost filled = { λ _ same. same };
}

// The cell at a place, 0 past the end.
pub fn at<T: Cell>(column: &[T], i: usize) -> T
    ensures { result ≡ get_or column.now i T.zero }
{
    if column.len() <= i {
        return T::zero();
    }
    column[i]
}

// A value into the cell at a place.
pub fn put<T: Cell>(column: &mut [T], i: usize, value: T)
    ensures { column.new ≡ set column.old i value }
{
    if i < column.len() {
        column[i] = value;
    }
}

// A part of a column: n cells from a place on, or what there is of them.
pub fn part<T>(column: &[T], from: usize, n: usize) -> &[T]
    ensures { result.now ≡ take n (drop from column.now) }
{
    let end = column.len();
    if end <= from {
        return &column[end..end];
    }
    if end - from <= n {
        return &column[from..end];
    }
    let to = from + n;
    &column[from..to]
}

// Every cell 0, whatever it held.
#[tactic(auto, unfolding(crate::specs::Zeros::copies))]
pub fn clear<T: Cell>(column: &mut [T])
    ensures { column.new ≡ copies T.zero (length column.old) }
{
    column.fill(T::zero());
}
