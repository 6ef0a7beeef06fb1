// The queue of a walk, in two lent columns that go round: an offset in one, and the number of buffers that are held there in the other.
ghost use Rattle.std.specs.Prelude.{◌≡◌, ◌<◌, length};
ghost use Rattle.buffers.specs.Walk.{raise};
ghost use Rattle.pool.specs.Columns.{seat_of, Raises, Firsts};
ghost use Rattle.pool.specs.Stated.{queue_in, ReadyIn, SameRoom};

use buffers::Unwalked;

// `count` entries wait, from `head` on. That they are numbered (`ReadyIn`) is no ghost field: the numbers are not the ring's.
#[derive(Drop)]
pub struct Ring<'a> {
    pub places: &'a mut [u16],
    pub carried: &'a mut [u16],
    pub head: usize,
    pub count: usize,
}

// An entry: an offset with a number of buffers.
#[derive(Clone, Copy)]
pub struct Waiting {
    pub offset: usize,
    pub held: u32,
}

// The place of the entry j in columns that go round.
#[tactic(auto, using(crate::proofs::Waiting::seat_before, crate::proofs::Waiting::seat_after))]
fn seat(room: usize, head: usize, j: usize) -> usize
    ensures { result ≡ seat_of room head j }
{
    let ahead = room.saturating_sub(head);
    if j < ahead { head + j } else { j - ahead }
}

impl Ring<'_> {
    // A successor with a smaller number or none gets this one and joins the queue.
    pub(crate) fn raise(&mut self, numbers: &mut [u32], sum: u32, to: usize) -> Result<(), Unwalked>
        requires ready { ReadyIn numbers.old self.old }
        requires to_in_bounds { (to < length numbers.old) × (sum < 65536) }
        ensures raises { Raises result numbers.new self.new.places.now self.new.carried.now self.new.head self.new.count (raise (length self.old.places.now) numbers.old (queue_in self.old) sum to) }
        ensures same { SameRoom self.old self.new }
    {
        if sum + 1 <= numbers[to] {
            return Ok(());
        }
        let room = self.places.len();
        if room <= self.count {
            return Err(Unwalked::QueueFull);
        }
        let at = seat(room, self.head, self.count);
        numbers[to] = sum + 1;
        self.places[at] = to as u16;
        self.carried[at] = sum as u16;
        self.count += 1;
        Ok(())
    }

    // The first entry that is not lower than the recorded number. No `for`: those before it are skipped.
    pub(crate) fn first(&mut self, numbers: &[u32]) -> Option<Waiting>
        requires { ReadyIn numbers.now self.old }
        ensures firsts { Firsts result numbers.now self.new.places.now self.new.carried.now self.new.head self.new.count (queue_in self.old) }
        ensures same { SameRoom self.old self.new }
    {
        while 0 < self.count {
            let room = self.places.len();
            let head = self.head;
            let offset = self.places[head] as usize;
            let held = self.carried[head] as u32;
            self.head = seat(room, head, 1);
            self.count -= 1;
            if cells::at(numbers, offset) <= held + 1 {
                return Some(Waiting { offset, held });
            }
        }
        None
    }
}
