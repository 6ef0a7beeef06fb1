// The bodies of a program, one after the other, over scratch that is zero before each and after each: weight, peak offset and callees of each.
ghost use Rattle.std.specs.Prelude.{◌≡◌, ◌+◌, ◌*◌, ◌≤◌, ◌<◌, length};
ghost use Rattle.cells.specs.Zeros.{zeros};
ghost use Rattle.pool.specs.Columns.{Walks, Blank, Lays};
ghost use Rattle.pool.specs.Stated.{body_in, walk_in, ClearedIn, RoomyIn, GivenBack};
ghost use Rattle.pool.specs.Usages.{Found};

use crate::Fault;
use crate::temp_rules::TempRules;
use crate::walk::walk;
use buffers::{Unwalked, Usage};
use program::Scratch;

// Decoded, then walked, over columns cut to the body's size. The stack check's bodies have this shape too, and nothing else in common: they lend other
// columns, walk by another definition and promise other things.
fn run(
    marks: &mut [u8],
    numbers: &mut [u32],
    places: &mut [u16],
    carried: &mut [u16],
    row: &mut [u8],
    rules: &TempRules<'_>,
    body: &[u8],
) -> Result<Usage, Unwalked>
    requires marks_value { (marks.old ≡ zeros (length body.now)) × ((numbers.old ≡ zeros (length body.now + 1)) × ((length places.old ≡ 2 * length body.now + 2) × ((length carried.old ≡ 2 * length body.now + 2) × (row.old ≡ zeros 128)))) }
    requires body_len_bound { length body.now ≤ 65535 }
    ensures { Walks result row.new (body_in rules.now.sizes.now rules.now.sources body.now) }
{
    flow::starts::mark_starts(marks, rules.sizes, body)?;
    numbers[0] = 1;
    walk(numbers, places, carried, row, rules, marks, body)
}

// One body, over the front of the scratch: its depths are the walk's numbers, its queue columns the places and what is carried there. What was used
// of marks and depths is cleared; the queue holds anything.
fn one(
    scratch: &mut Scratch<'_>,
    row: &mut [u8],
    rules: &TempRules<'_>,
    body: &[u8],
) -> Result<Usage, Unwalked>
    requires { ClearedIn scratch.old × (RoomyIn (length body.now) scratch.old × (row.old ≡ zeros 128)) }
    ensures { Walks result row.new (body_in rules.now.sizes.now rules.now.sources body.now) × GivenBack scratch.old scratch.new }
{
    let n = body.len();
    let e = n + 1;
    let q = 2 * n + 2;
    let used = run(
        &mut scratch.marks[..n],
        &mut scratch.depths[..e],
        &mut scratch.queue[..q],
        &mut scratch.queue_depths[..q],
        row,
        rules,
        body,
    );
    cells::clear(&mut scratch.marks[..n]);
    cells::clear(&mut scratch.depths[..e]);
    used
}

// The body of the function at a row, with its row of the callee cells.
fn at_row(
    scratch: &mut Scratch<'_>,
    cells: &mut [u8],
    rules: &TempRules<'_>,
    body: &[u8],
    row: usize,
) -> Result<Usage, Unwalked>
    requires { ClearedIn scratch.old × (RoomyIn (length body.now) scratch.old × Blank row cells.old) }
    ensures { Lays result (row * 128) cells.old cells.new (body_in rules.now.sizes.now rules.now.sources body.now) × GivenBack scratch.old scratch.new }
{
    let at = row * 128;
    let end = at + 128;
    one(scratch, &mut cells[at..end], rules, body)
}

// The weight and the peak offset of each function, by its row. Two arrays: the visit is lent the weights alone.
#[derive(Drop)]
pub struct Usages {
    pub weights: [u16; 128],
    pub peaks: [usize; 128],
}

// Functions in directory order: the first whose walk gives 22 or 23 ends the call. No `map_err`: a closure that borrows the row hides it from the
// invariant.
pub(crate) fn all(
    scratch: &mut Scratch<'_>,
    cells: &mut [u8],
    rules: &TempRules<'_>,
) -> Result<Usages, Fault>
    requires cleared { ClearedIn scratch.old × (RoomyIn (length rules.now.sources.program.program.code.now) scratch.old × ((16384 ≤ length cells.old) × (cells.old ≡ zeros (length cells.old)))) }
    requires functions_limit { length rules.now.sources.program.program.functions.ids.now ≤ 128 }
    ensures found { Found result cells.new (walk_in rules.now.sizes.now rules.now.sources) rules.now.sources.program.program.functions.ids.now }
    ensures given_back { GivenBack scratch.old scratch.new }
{
    let functions = &rules.sources.program.program.functions;
    let code = rules.sources.program.program.code;
    let mut weights = [0u16; 128];
    let mut peaks = [0usize; 128];
    for row in 0..functions.ids.len() {
        let body = cells::part(
            code,
            cells::at(functions.offsets, row),
            cells::at(functions.lengths, row),
        );
        let used = at_row(scratch, cells, rules, body, row);
        match used {
            Ok(usage) => {
                weights[row] = usage.weight as u16;
                peaks[row] = usage.peak;
            }
            Err(unwalked) => return Err(Fault::of(functions.ids[row], unwalked)),
        }
    }
    Ok(Usages { weights, peaks })
}
