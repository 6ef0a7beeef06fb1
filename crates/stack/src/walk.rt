// The first-in first-out walk of a body, from offset 0 at depth 0. The definition is rules' `walk_of`.
ghost use Rattle.std.specs.Prelude.{◌≡◌, ◌+◌, ◌≤◌, ◌<◌, length, take};
ghost use Rattle.rules.specs.Look.{look_of};
ghost use Rattle.rules.specs.Walk.{follow, begun, walk_of};
ghost use Rattle.effects.specs.Stated.{known_in};
ghost use Rattle.stack.specs.Columns.{Turns, Fitting};

use crate::look::look;
use crate::program_rules::Rules;
use crate::queue::{Queue, Reached};
use rules::Violation;

// One turn of the walk, at the entry in hand.
#[tactic(auto, unfolding(rules::specs::Walk::follow))]
#[inline(always)]
fn turn_at(
    queue: &mut Queue<'_>,
    rules: &Rules<'_>,
    marks: &[u8],
    body: &[u8],
    maximum: u16,
    alone: bool,
    entry: Reached,
) -> Result<Option<Reached>, Violation>
    requires long { length queue.old.depths.now ≡ length body.now + 1 }
    requires fits { Fitting marks.now body.now × (entry.depth < 4294967296) }
    ensures turns { Turns alone queue.old.tail queue.old.places.now result queue.new.tail queue.new.depths.now queue.new.places.now (follow queue.old.depths.now (take queue.old.tail queue.old.places.now) (look_of (known_in rules.now.sources) marks.now body.now maximum entry.offset entry.depth)) }
    ensures same { length queue.new.depths.now ≡ length queue.old.depths.now }
{
    let onward = look(rules, marks, body, maximum, entry.offset, entry.depth)?;
    queue.follow_on(alone, onward)
}

// The walk, which makes its queue (lent by the caller: 77 microseconds in the place of 65 for 12,288 bytes). Offset 0 has its depth on record; each turn is at another offset, so that a turn for each suffices.
#[tactic(auto, using(crate::proofs::Walking::walking_stop))]
#[inline(always)]
pub(crate) fn walk(
    depths: &mut [u32],
    places: &mut [u16],
    rules: &Rules<'_>,
    marks: &[u8],
    body: &[u8],
    maximum: u16,
) -> Result<(), Violation>
    requires begins { (depths.old ≡ begun (length body.now + 1)) × ((length body.now + 1 ≤ length places.old) × (length body.now ≤ 65535)) }
    requires fits { Fitting marks.now body.now }
    ensures { result ≡ walk_of (look_of (known_in rules.now.sources) marks.now body.now maximum) (length body.now + 1) }
{
    let mut queue = Queue {
        depths,
        places,
        tail: 0,
    };
    let mut head: usize = 0;
    let mut entry = Reached {
        offset: 0,
        depth: 0,
    };
    for i in 0..body.len() + 1 {
        let alone = head == queue.tail;
        if let Some(next) = turn_at(&mut queue, rules, marks, body, maximum, alone, entry)? {
            entry = next;
            continue;
        }
        if queue.tail <= head {
            return Ok(());
        }
        entry = queue.entry_at(head);
        head += 1;
    }
    Ok(())
}
