// The pool check of 01 over lent columns and lent scratch: each function in directory order decoded and walked, then for each entry the depth-first
// visit of the call graph.
#![tactic(auto)]

mod bodies;
mod ring;
mod temp_rules;
mod tread;
mod walk;

ghost use Rattle.std.specs.Prelude.{◌≡◌, length};
ghost use Rattle.cells.specs.Zeros.{ZeroAfter};
ghost use Rattle.program.specs.Stated.{pool_program_in, room_in, SameColumns};
ghost use Rattle.program.specs.Taken.{PoolTaken};
ghost use Rattle.pool.specs.declared.Fault.TheVariants.{Refused};
ghost use Rattle.pool.specs.Pool.{fault_of, taken_answer, pool_answer, scratch_after, fields_of};
ghost use Rattle.pool.specs.Stated.{visit_in};
ghost use Rattle.pool.specs.Usages.{judged_of};

use answers::Fields;
use bodies::Usages;
use buffers::Unwalked;
use callees::Sources;
use program::{PoolProgram, Refusal, Scratch};
use temp_rules::TempRules;
use visit::{CallGraph, Overrun};

// Why the call does not accept: the input refused, 20 with the function that closed above the pool and its peak offset, 21, 22 or 23.
#[derive(Clone, Copy, PartialEq, Eq, Debug)]
pub enum Fault {
    Refused(Refusal),
    ExceedsDeclaredPool {
        function: u16,
        offset: usize,
        depth: u16,
        declared: u16,
    },
    RecursiveCallGraph(u16),
    Undecodable(u16),
    QueueFull(u16),
}

impl From<Refusal> for Fault {
    ghost from_gives = { λ refusal fault. fault ≡ Refused refusal };

    fn from(refusal: Refusal) -> Fault {
        Fault::Refused(refusal)
    }
}

impl Fault {
    // 22 or 23 in a function.
    fn of(function: u16, unwalked: Unwalked) -> Fault
        ensures { result ≡ fault_of function unwalked }
    {
        match unwalked {
            Unwalked::Undecodable => Fault::Undecodable(function),
            Unwalked::QueueFull => Fault::QueueFull(function),
        }
    }
}

// The visit's answer, with ids and peak offsets in the place of rows.
fn visited(cells: &[u8], usages: &Usages, program: &PoolProgram<'_>) -> Result<(), Fault>
    ensures { result ≡ visit_in program.now cells.now usages.now }
{
    let ids = program.program.functions.ids;
    let graph = CallGraph {
        cells,
        weights: &usages.weights,
        pool: program.pool,
    };
    let seen = visit::visit_entries(&graph, ids, program.entries);
    match seen {
        Ok(_) => Ok(()),
        Err(Overrun::Cycle(row)) => Err(Fault::RecursiveCallGraph(cells::at(ids, row))),
        Err(Overrun::Over(row, total)) => Err(Fault::ExceedsDeclaredPool {
            function: cells::at(ids, row),
            offset: cells::at(&usages.peaks, row),
            depth: total,
            declared: program.pool,
        }),
    }
}

// 22 and 23, else the visit.
#[tactic(auto, unfolding(crate::specs::Usages::judged_of))]
fn judged(
    cells: &[u8],
    usages: Result<Usages, Fault>,
    program: &PoolProgram<'_>,
) -> Result<(), Fault>
    ensures { result ≡ judged_of usages (visit_in program.now cells.now) }
{
    visited(cells, &usages?, program)
}

// The program of an input that is not refused, over scratch that may hold anything: all of it is cleared once.
fn checked(
    scratch: &mut Scratch<'_>,
    cells: &mut [u8],
    program: &PoolProgram<'_>,
) -> Result<(), Fault>
    requires { PoolTaken (pool_program_in program.now) (room_in scratch.old) (length cells.old) }
    ensures value { result ≡ taken_answer (pool_program_in program.now) }
    ensures zero_after { ZeroAfter scratch.old.marks.now scratch.new.marks.now × (ZeroAfter scratch.old.depths.now scratch.new.depths.now × (ZeroAfter scratch.old.queue.now scratch.new.queue.now × (ZeroAfter scratch.old.queue_depths.now scratch.new.queue_depths.now × ZeroAfter cells.old cells.new))) }
    ensures same { SameColumns scratch.old scratch.new }
{
    prove!(program.pool < 65535); // what is taken says only that the pool is not 65,535
    let sizes = tables::sizes();
    let words = tables::words();
    let mut hints = [0u16; 8192];
    codes::note_for(
        &mut hints,
        program.program.list.ids,
        program.program.code.len(),
    );
    cells::clear(scratch.marks);
    cells::clear(scratch.depths);
    cells::clear(cells);
    let sources = Sources {
        words: &words,
        hints: &hints,
        program: *program,
    };
    let rules = TempRules {
        sizes: &sizes,
        sources,
    };
    let usages = bodies::all(scratch, cells, &rules);
    let verdict = judged(cells, usages, program);
    cells::clear(scratch.queue);
    cells::clear(scratch.queue_depths);
    cells::clear(cells);
    verdict
}

// The pool call. 30 to 35 leave the scratch untouched; every other answer leaves all of it zero, spare cells included.
pub fn pool_check(
    scratch: &mut Scratch<'_>,
    cells: &mut [u8],
    program: &PoolProgram<'_>,
) -> Result<(), Fault>
    ensures value { result ≡ pool_answer (pool_program_in program.now) (room_in scratch.old) (length cells.old) }
    ensures marks_after { (scratch.new.marks.now ≡ scratch_after result scratch.old.marks.now) × ((scratch.new.depths.now ≡ scratch_after result scratch.old.depths.now) × ((scratch.new.queue.now ≡ scratch_after result scratch.old.queue.now) × ((scratch.new.queue_depths.now ≡ scratch_after result scratch.old.queue_depths.now) × (cells.new ≡ scratch_after result cells.old)))) }
    ensures same { SameColumns scratch.old scratch.new }
{
    program::pool_input(program, scratch.room(), cells.len())?;
    checked(scratch, cells, program)
}

// 01's number and values of an answer.
#[tactic(auto, unfolding(crate::specs::Pool::fields_of))]
pub fn fields(verdict: Result<(), Fault>) -> Fields
    ensures { result ≡ fields_of verdict }
{
    match verdict {
        Ok(()) => answers::accepted(),
        Err(Fault::Refused(refusal)) => answers::of_refusal(Err(refusal)),
        Err(
            Fault::ExceedsDeclaredPool {
                function,
                offset,
                depth,
                declared,
            },
        ) => answers::fields_by(20, function, offset, depth as u64, declared as u64, 0),
        Err(Fault::RecursiveCallGraph(function)) => answers::fields_by(21, function, 0, 0, 0, 0),
        Err(Fault::Undecodable(function)) => answers::fields_by(22, function, 0, 0, 0, 0),
        Err(Fault::QueueFull(function)) => answers::fields_by(23, function, 0, 0, 0, 0),
    }
}
