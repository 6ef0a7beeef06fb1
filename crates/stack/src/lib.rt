// The stack check of 01 over lent columns and lent scratch: functions in directory order, the whole body decoded first, then the walk; the first
// violation ends the call. It never looks at descriptors, entries or pool.
#![tactic(auto)]

mod bodies;
mod look;
mod program_rules;
mod queue;
mod walk;

ghost use Rattle.std.specs.Prelude.{◌≡◌, length};
ghost use Rattle.cells.specs.Zeros.{ZeroAfter};
ghost use Rattle.tables.specs.Set.{size_of, move_of};
ghost use Rattle.program.specs.Stated.{program_in, room_in, SameColumns};
ghost use Rattle.program.specs.Refusals.{room_of};
ghost use Rattle.program.specs.Taken.{StackTaken};
ghost use Rattle.effects.specs.Effects.{known_of};
ghost use Rattle.stack.specs.declared.Fault.{Fault};
ghost use Rattle.stack.specs.Stack.{functions_answer, stack_answer, scratch_after, fields_of};

use crate::program_rules::Rules;
use answers::Fields;
use effects::Sources;
use program::{Program, Refusal, Scratch};
use rules::Violation;

// Why the call does not accept: the input is refused, or the first violation with the function that it stands in.
#[derive(Clone, Copy, PartialEq, Eq, Debug)]
pub enum Fault {
    Refused(Refusal),
    Violated { function: u16, violation: Violation },
}

impl From<Refusal> for Fault {
    ghost from_gives = { λ refusal fault. fault ≡ Fault.Refused refusal };

    fn from(refusal: Refusal) -> Fault {
        Fault::Refused(refusal)
    }
}

// The bodies of an input that is not refused, over scratch that may hold anything: what each function gives back is decoded once, all scratch
// is cleared once. The walk queues no depths, so the second queue column holds the hints of the code list, and the columns come apart; any hints will
// do, so it need not be cleared before.
#[tactic(auto, using(crate::proofs::Calling::words_go_on))]
fn checked(
    marks: &mut [u8],
    depths: &mut [u32],
    queue: &mut [u16],
    queue_depths: &mut [u16],
    program: &Program<'_>,
) -> Result<(), Fault>
    requires { StackTaken (program_in program.now) (room_of (length marks.old) (length depths.old) (length queue.old) (length queue_depths.old)) }
    ensures value { result ≡ functions_answer size_of (known_of move_of (program_in program.now)) (program_in program.now) }
    ensures zero_after { ZeroAfter marks.old marks.new × (ZeroAfter depths.old depths.new × (ZeroAfter queue.old queue.new × ZeroAfter queue_depths.old queue_depths.new)) }
{
    let sizes = tables::sizes();
    let words = tables::words();
    let mut given = [0u8; 128];
    effects::given_back(&mut given, &sizes, program);
    codes::note_for(queue_depths, program.list.ids, program.code.len());
    cells::clear(marks);
    cells::clear(depths);
    let sources = Sources {
        words: &words,
        hints: queue_depths,
        given: &given,
        program: *program,
    };
    let rules = Rules {
        sizes: &sizes,
        sources,
    };
    let verdict = bodies::all(marks, depths, queue, &rules);
    cells::clear(queue);
    cells::clear(queue_depths);
    verdict
}

// The stack call. 30 to 34 leave the scratch untouched; every other answer leaves all of it zero, spare cells included.
#[tactic(auto, using(program::proofs::Taken::stack_taken, crate::proofs::Calling::scratch_zero), unfolding(crate::specs::Stack::stack_answer, crate::specs::Stack::scratch_after))]
pub fn stack_check(scratch: &mut Scratch<'_>, program: &Program<'_>) -> Result<(), Fault>
    ensures value { result ≡ stack_answer (program_in program.now) (room_in scratch.old) }
    ensures marks_after { (scratch.new.marks.now ≡ scratch_after result scratch.old.marks.now) × ((scratch.new.depths.now ≡ scratch_after result scratch.old.depths.now) × ((scratch.new.queue.now ≡ scratch_after result scratch.old.queue.now) × (scratch.new.queue_depths.now ≡ scratch_after result scratch.old.queue_depths.now))) }
    ensures same_columns { SameColumns scratch.old scratch.new }
{
    program::stack_input(program, scratch.room())?;
    checked(
        scratch.marks,
        scratch.depths,
        scratch.queue,
        scratch.queue_depths,
        program,
    )
}

// 01's number and values of an answer.
#[tactic(auto, unfolding(crate::specs::Stack::fields_of))]
pub fn fields(verdict: Result<(), Fault>) -> Fields
    ensures { result ≡ fields_of verdict }
{
    match verdict {
        Ok(()) => answers::accepted(),
        Err(Fault::Refused(refusal)) => answers::of_refusal(Err(refusal)),
        Err(
            Fault::Violated {
                function,
                violation,
            },
        ) => answers::of_violation(function, violation),
    }
}
