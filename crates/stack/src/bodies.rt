// The bodies of a program, one after the other, over scratch that is zero before each and after each.
ghost use Rattle.std.specs.Prelude.{◌≡◌, ◌+◌, ◌≤◌, length};
ghost use Rattle.cells.specs.Zeros.{zeros};
ghost use Rattle.tables.specs.Packed.{size_in};
ghost use Rattle.program.specs.Stated.{program_in};
ghost use Rattle.effects.specs.Stated.{known_in};
ghost use Rattle.stack.specs.Columns.{Cleared, Roomy};
ghost use Rattle.stack.specs.Stack.{body_answer, functions_answer};

use crate::Fault;
use crate::program_rules::Rules;
use crate::walk::walk;
use rules::Violation;

// Both phases, over marks and depths cut to the body's size, which no `Scratch` can say. The pool check's bodies have the shape of these and nothing else
// in common. From here down to the look all is inlined: straight bodies take a tenth less.
#[tactic(auto, using(cells::specs::Zeros::length_zeros, crate::proofs::Running::body_walks, crate::proofs::Running::marks_fitting, crate::proofs::Running::begins_walk), unfolding(crate::specs::Stack::body_answer))]
#[inline(always)]
fn run(
    marks: &mut [u8],
    depths: &mut [u32],
    queue: &mut [u16],
    rules: &Rules<'_>,
    body: &[u8],
    maximum: u16,
) -> Result<(), Violation>
    requires marks_value { (marks.old ≡ zeros (length body.now)) × ((depths.old ≡ zeros (length body.now + 1)) × ((length body.now + 1 ≤ length queue.old) × (length body.now ≤ 65535))) }
    ensures { result ≡ body_answer (size_in rules.now.sizes.now) (known_in rules.now.sources) body.now maximum }
{
    flow::starts::mark_starts(marks, rules.sizes, body)?;
    depths[0] = 1;
    walk(depths, queue, rules, marks, body, maximum)
}

// One body, over the front of the scratch. What it used is cleared; the queue holds anything. That marks and depths are zero is no ghost field: they are
// not while the body is walked.
#[tactic(auto, using(cells::specs::Zeros::take_zeros, cells::specs::Zeros::patched))]
#[inline(always)]
fn one(
    marks: &mut [u8],
    depths: &mut [u32],
    queue: &mut [u16],
    rules: &Rules<'_>,
    body: &[u8],
    maximum: u16,
) -> Result<(), Violation>
    requires cleared { Cleared marks.old depths.old × Roomy (length body.now) marks.old depths.old queue.old }
    ensures { (result ≡ body_answer (size_in rules.now.sizes.now) (known_in rules.now.sources) body.now maximum) × ((marks.new ≡ zeros (length marks.old)) × (depths.new ≡ zeros (length depths.old))) }
{
    let n = body.len();
    let e = n + 1;
    let walked = run(
        &mut marks[..n],
        &mut depths[..e],
        queue,
        rules,
        body,
        maximum,
    );
    cells::clear(&mut marks[..n]);
    cells::clear(&mut depths[..e]);
    walked
}

// Functions in directory order. No `Scratch` and no `map_err`: the rules read its last column while the others change, and a closure that borrows the
// row hides it from the invariant.
#[tactic(auto, using(crate::proofs::Running::going_cleared, crate::proofs::Running::going_room, crate::proofs::Running::roomy_part))]
pub(crate) fn all(
    marks: &mut [u8],
    depths: &mut [u32],
    queue: &mut [u16],
    rules: &Rules<'_>,
) -> Result<(), Fault>
    requires cleared { Cleared marks.old depths.old × Roomy (length rules.now.sources.program.code.now) marks.old depths.old queue.old }
    ensures { (result ≡ functions_answer (size_in rules.now.sizes.now) (known_in rules.now.sources) (program_in rules.now.sources.program)) × ((marks.new ≡ zeros (length marks.old)) × (depths.new ≡ zeros (length depths.old))) }
{
    let functions = &rules.sources.program.functions;
    for row in 0..functions.ids.len() {
        let body = cells::part(
            rules.sources.program.code,
            cells::at(functions.offsets, row),
            cells::at(functions.lengths, row),
        );
        let maximum = cells::at(functions.maxima, row);
        if let Err(violation) = one(marks, depths, queue, rules, body, maximum) {
            return Err(Fault::Violated {
                function: functions.ids[row],
                violation,
            });
        }
    }
    Ok(())
}
