// The first-in first-out queue of a walk beside the depths on record, in lent columns: what the definition's `put` and `follow` do.
ghost use Rattle.std.specs.Prelude.{◌≡◌, true, ◌+◌, ◌-◌, ◌<◌, length, get_or, take, Ok};
ghost use Rattle.rules.specs.declared.Onward.{Onward};
ghost use Rattle.rules.specs.Look.{Bounded};
ghost use Rattle.rules.specs.Walk.{put, follow};
ghost use Rattle.stack.specs.Columns.{meet_of, Ready, Puts, Turns};

use rules::{Onward, Violation};

// How a successor stands to the depth that it is to have: it has none yet, or that one.
#[derive(Clone, Copy, PartialEq, Eq, Debug)]
pub enum Meeting {
    New,
    Same,
}

// An offset that is reached, with its depth.
#[derive(Clone, Copy, PartialEq, Eq, Debug)]
pub struct Reached {
    pub offset: usize,
    pub depth: u64,
}

// The first `tail` places have joined. Fewer have joined than have a depth, so that there is room for each that gets one.
#[derive(Drop)]
pub struct Queue<'a> {
    pub depths: &'a mut [u32],
    pub places: &'a mut [u16],
    pub tail: usize,
    ghost ready: { Ready depths.now places.now tail },
}

impl Queue<'_> {
    // 8, at the successor, the existing depth first.
    #[tactic(auto, unfolding(crate::specs::Columns::meet_of))]
    fn meet(&self, to: usize, out: u64) -> Result<Meeting, Violation>
        requires { out < 65536 }
        ensures { result ≡ meet_of self.now.depths.now to out }
    {
        let held = u64::from(cells::at(self.depths, to));
        if held == 0 {
            return Ok(Meeting::New);
        }
        if held == out + 1 {
            return Ok(Meeting::Same);
        }
        Err(Violation::MergeConflict {
            offset: to,
            existing: held - 1,
            incoming: out,
        })
    }

    // A successor without a depth gets one and joins the queue.
    fn put(&mut self, to: usize, out: u64) -> Result<(), Violation>
        requires to_in_bounds { (to < length self.old.depths.now) × (out < 65536) }
        ensures puts { Puts self.old.tail result self.new.tail self.new.depths.now self.new.places.now (put self.old.depths.now (take self.old.tail self.old.places.now) to out) }
        ensures same { length self.new.depths.now ≡ length self.old.depths.now }
    {
        let meeting = self.meet(to, out)?;
        match meeting {
            Meeting::New => {
                self.depths[to] = (out + 1) as u32;
                self.places[self.tail] = to as u16;
                self.tail += 1;
                Ok(())
            }
            Meeting::Same => Ok(()),
        }
    }

    // The single successor of an empty queue never enters it: joining and leaving it again would give the same.
    fn straight_on(&mut self, to: usize, out: u64) -> Result<Option<Reached>, Violation>
        requires to_in_bounds { (to < length self.old.depths.now) × (out < 65536) }
        ensures turns { Turns true self.old.tail self.old.places.now result self.new.tail self.new.depths.now self.new.places.now (put self.old.depths.now (take self.old.tail self.old.places.now) to out) }
        ensures same { length self.new.depths.now ≡ length self.old.depths.now }
    {
        let meeting = self.meet(to, out)?;
        match meeting {
            Meeting::New => {
                self.depths[to] = (out + 1) as u32;
                Ok(Some(Reached {
                    offset: to,
                    depth: out,
                }))
            }
            Meeting::Same => Ok(None),
        }
    }

    // The branch target, then the next instruction.
    #[tactic(auto, unfolding(rules::specs::Walk::follow))]
    fn put_both(&mut self, to: usize, next: usize, out: u64) -> Result<(), Violation>
        requires to_in_bounds { (to < length self.old.depths.now) × ((next < length self.old.depths.now) × (out < 65536)) }
        ensures puts { Puts self.old.tail result self.new.tail self.new.depths.now self.new.places.now (follow self.old.depths.now (take self.old.tail self.old.places.now) (Ok (Onward.Forks out to next))) }
        ensures same { length self.new.depths.now ≡ length self.old.depths.now }
    {
        self.put(to, out)?;
        self.put(next, out)
    }

    // What follows where no rule is broken: an entry to go on with at once, or the queue. `alone` says that nothing waits there.
    #[tactic(auto, unfolding(rules::specs::Walk::follow))]
    pub(crate) fn follow_on(
        &mut self,
        alone: bool,
        onward: Onward,
    ) -> Result<Option<Reached>, Violation>
        requires { Bounded (length self.old.depths.now) 65535 (Ok onward) }
        ensures turns { Turns alone self.old.tail self.old.places.now result self.new.tail self.new.depths.now self.new.places.now (follow self.old.depths.now (take self.old.tail self.old.places.now) (Ok onward)) }
        ensures same { length self.new.depths.now ≡ length self.old.depths.now }
    {
        match onward {
            Onward::Leaves => Ok(None),
            Onward::Goes { out, to } => {
                if alone {
                    return self.straight_on(to, out);
                }
                self.put(to, out)?;
                Ok(None)
            }
            Onward::Forks { out, to, next } => {
                self.put_both(to, next, out)?;
                Ok(None)
            }
        }
    }

    // The entry that joined at a place, with its depth on record.
    pub(crate) fn entry_at(&self, place: usize) -> Reached
        ensures { (result.offset ≡ get_or self.now.places.now place 0) × ((result.depth ≡ get_or self.now.depths.now result.offset 0 - 1) × (result.depth < 4294967296)) }
    {
        let offset = usize::from(cells::at(self.places, place));
        let depth = u64::from(cells::at(self.depths, offset)).saturating_sub(1);
        Reached { offset, depth }
    }
}
