// The walk of one body that keeps the larger number at merges, over lent columns. The entry in hand is treaded before those that wait; where nothing
// waits, the only successor is gone on with at once and never joins the queue.
ghost use Rattle.std.specs.Prelude.{◌≡◌, cond, ltb, ◌+◌, ◌*◌, ◌≤◌, ◌<◌, length, take};
ghost use Rattle.cells.specs.Zeros.{zeros};
ghost use Rattle.buffers.specs.Tread.{Leads};
ghost use Rattle.buffers.specs.Walk.{follow, noted, begun, walk_of};
ghost use Rattle.pool.specs.Columns.{Turns, Listed, Walks, Fitting};
ghost use Rattle.pool.specs.Stated.{rule_in, queue_in, ReadyIn, SameRoom};

use crate::ring::{Ring, Waiting};
use crate::temp_rules::TempRules;
use crate::tread::tread;
use buffers::{Unwalked, Usage, Way};

// What follows from a tread: the offset to go on with at once, or the queue. The only successor while nothing waits goes on at once: joining the
// queue and leaving it again would give the same.
fn follow_on(
    numbers: &mut [u32],
    ring: &mut Ring<'_>,
    sum: u32,
    way: Way,
) -> Result<Option<usize>, Unwalked>
    requires ready { ReadyIn numbers.old ring.old }
    requires leads { Leads (length numbers.old) 65535 sum way }
    ensures turns { Turns ring.old.count sum result numbers.new ring.new.places.now ring.new.carried.now ring.new.head ring.new.count (follow (length ring.old.places.now) numbers.old (queue_in ring.old) sum way) }
    ensures same { SameRoom ring.old ring.new }
{
    match way {
        Way::Ends => Ok(None),
        Way::Astray => Err(Unwalked::Undecodable),
        Way::Goes(to) => {
            if ring.count == 0 {
                if sum + 1 <= numbers[to] {
                    return Ok(None);
                }
                numbers[to] = sum + 1;
                return Ok(Some(to));
            }
            ring.raise(numbers, sum, to)?;
            Ok(None)
        }
        Way::Forks { to, next } => {
            ring.raise(numbers, sum, to)?;
            ring.raise(numbers, sum, next)?;
            Ok(None)
        }
    }
}

// A callee in first-met order, each once.
fn note(row: &mut [u8], met: usize, cell: u8) -> usize
    requires { Listed row.old met × (cell ≤ 128) }
    ensures { Listed row.new result × (take result row.new ≡ noted cell (take met row.old)) }
{
    if cell == 0 {
        return met;
    }
    if row[..met].contains(&cell) {
        return met;
    }
    row[met] = cell;
    met + 1
}

// The first place of the largest sum.
fn peak_with(weight: u32, sum: u32, peak: usize, offset: usize) -> usize
    ensures { result ≡ cond (ltb weight sum) offset peak }
{
    if weight < sum { offset } else { peak }
}

// The walk, from offset 0 with 0 buffers. Each turn takes an entry, and each entry that joins the queue raised a number, which the pool bounds.
pub(crate) fn walk(
    numbers: &mut [u32],
    places: &mut [u16],
    carried: &mut [u16],
    row: &mut [u8],
    rules: &TempRules<'_>,
    marks: &[u8],
    body: &[u8],
) -> Result<Usage, Unwalked>
    requires numbers_value { (numbers.old ≡ begun (length body.now + 1)) × ((length places.old ≡ 2 * length body.now + 2) × ((length carried.old ≡ 2 * length body.now + 2) × (row.old ≡ zeros 128))) }
    requires fitting { Fitting marks.now body.now × (length body.now ≤ 65535) }
    ensures { Walks result row.new (walk_of (rule_in rules.now.sources marks.now body.now) (2 * length body.now + 2) rules.now.sources.program.pool (length body.now + 1)) }
{
    let mut ring = Ring {
        places,
        carried,
        head: 0,
        count: 0,
    };
    let mut entry = Waiting { offset: 0, held: 0 };
    let mut weight: u32 = 0;
    let mut peak: usize = 0;
    let mut met: usize = 0;
    loop {
        let step = tread(rules, marks, body, entry.offset, entry.held);
        met = note(row, met, step.opens);
        let sum = step.sum;
        peak = peak_with(weight, sum, peak, entry.offset);
        weight = weight.max(sum);
        if let Some(to) = follow_on(numbers, &mut ring, sum, step.way)? {
            entry = Waiting {
                offset: to,
                held: sum,
            };
            continue;
        }
        let Some(next) = ring.first(numbers) else {
            return Ok(Usage { weight, peak });
        };
        entry = next;
    }
}
