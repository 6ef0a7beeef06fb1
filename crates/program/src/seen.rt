// Refusal 32: a function id that stands in an earlier row. Ids that rise repeat nothing; else one bit for each of the 65,536 ids
// says which have been met, so that a row costs the same however many stand before it.
ghost use Rattle.std.specs.Prelude.{◌^◌, ◌<◌, ◌≡◌};
ghost use Rattle.program.specs.Refusals.{repeated_of};
ghost use Rattle.program.specs.Seen.{with_bit, seen, met};

fn with_bit(cell: u8, bit: usize) -> u8
    requires { bit < 8 }
    ensures { result ≡ with_bit cell bit }
{
    let weight = 1u8 << bit;
    if cell / weight % 2 == 1 {
        return cell;
    }
    cell + weight
}

// Whether the id was met before; it has been now.
fn meet(marks: &mut [u8; 8192], id: u16) -> bool
    ensures { (result ≡ seen marks.old id) × (marks.new ≡ met marks.old id) }
{
    let at = (id / 8) as usize;
    let cell = marks[at];
    let marked = with_bit(cell, (id % 8) as usize);
    marks[at] = marked;
    marked == cell
}

fn repeated_by_marks(ids: &[u16]) -> Option<usize>
    ensures { result ≡ repeated_of ids.now }
{
    let mut marks = [0u8; 8192];
    for i in 0..ids.len() {
        if meet(&mut marks, ids[i]) {
            return Some(i);
        }
    }
    None
}

// The first row whose id stands in an earlier row.
pub fn repeated(ids: &[u16]) -> Option<usize>
    ensures { result ≡ repeated_of ids.now }
{
    if codes::check_rows(ids, &[]).is_ok() {
        return None;
    }
    repeated_by_marks(ids)
}
