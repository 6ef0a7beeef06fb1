// Both checks over a bench file's bytes (01, "Bench file, program and C entry"): the file is read into local columns of 01's limits, a refusal of
// the file or of its program ends the call, and else both checks run over one local scratch.
#![tactic(auto)]

ghost use Rattle.std.specs.Prelude.{◌≡◌};
ghost use Rattle.program.specs.Stated.{pool_program_in};
ghost use Rattle.file.specs.Stated.{columns_in};
ghost use Rattle.desk.specs.Desk.{both_of, fronts_of, program_answer, desk_answer};

use answers::Fields;
use codes::CodeList;
use file::{Columns, Refused, Sizes};
use program::{Descriptors, Functions, PoolProgram, Program, Room, Scratch};

// What is said of a file that is not refused: the fields of both checks.
#[derive(Clone, Copy, PartialEq, Eq, Debug)]
pub struct Checked {
    pub stack: Fields,
    pub pool: Fields,
}

// Both checks, one after the other over the same scratch.
fn both_checks(program: &PoolProgram<'_>) -> Checked
    ensures { result ≡ both_of (pool_program_in program.now) }
{
    let mut marks = [0u8; 12288];
    let mut depths = [0u32; 12289];
    let mut queue = [0u16; 24578];
    let mut queue_depths = [0u16; 24578];
    let mut callee_cells = [0u8; 16384];
    let mut scratch = Scratch {
        marks: &mut marks,
        depths: &mut depths,
        queue: &mut queue,
        queue_depths: &mut queue_depths,
    };
    let stack = stack::fields(stack::stack_check(&mut scratch, &program.program));
    let pool = pool::fields(pool::pool_check(&mut scratch, &mut callee_cells, program));
    Checked { stack, pool }
}

// The pool call's refusals come before either check, so that 35 stops both.
#[tactic(auto, using(crate::proofs::DeskLaws::taken), unfolding(crate::specs::Desk::full_room, crate::specs::Desk::program_answer, crate::specs::Desk::on_input))]
fn check_program(program: &PoolProgram<'_>) -> Result<Checked, Refused>
    ensures { result ≡ program_answer (pool_program_in program.now) }
{
    let room = Room {
        marks: 12288,
        depths: 12289,
        queue: 24578,
        queue_depths: 24578,
    };
    program::pool_input(program, room, 16384).map_err(|refusal| Refused {
        number: refusal.number(),
        place: refusal.place(),
    })?;
    Ok(both_checks(program))
}

// The program that stands at the front of the columns.
fn fronts<'a>(columns: &'a Columns<'_>, sizes: &Sizes) -> PoolProgram<'a>
    ensures { pool_program_in result ≡ fronts_of sizes.now (columns_in columns.now) }
{
    let functions = Functions {
        ids: cells::part(columns.function_ids, 0, sizes.functions),
        parameters: cells::part(columns.parameters, 0, sizes.functions),
        maxima: cells::part(columns.maxima, 0, sizes.functions),
        offsets: cells::part(columns.offsets, 0, sizes.functions),
        lengths: cells::part(columns.lengths, 0, sizes.functions),
    };
    let list = CodeList {
        ids: cells::part(columns.list_ids, 0, sizes.rows),
        counts: cells::part(columns.list_counts, 0, sizes.rows),
        flags: cells::part(columns.list_flags, 0, sizes.rows),
    };
    let descriptors = Descriptors {
        types: cells::part(columns.type_ids, 0, sizes.descriptors),
        callees: cells::part(columns.descriptor_functions, 0, sizes.descriptors),
    };
    PoolProgram {
        program: Program {
            functions,
            list,
            code: cells::part(columns.code, 0, sizes.code),
        },
        descriptors,
        entries: cells::part(columns.entries, 0, sizes.entries),
        pool: sizes.pool,
    }
}

// The answer to a bench file.
pub fn check_file(file: &[u8]) -> Result<Checked, Refused>
    ensures { result ≡ desk_answer file.now }
{
    let mut list_ids = [0u16; 6144];
    let mut list_counts = [0u16; 6144];
    let mut list_flags = [0u16; 6144];
    let mut function_ids = [0u16; 128];
    let mut parameters = [0u16; 128];
    let mut maxima = [0u16; 128];
    let mut offsets = [0usize; 128];
    let mut lengths = [0usize; 128];
    let mut type_ids = [0u16; 256];
    let mut descriptor_functions = [0u16; 256];
    let mut entries = [0u16; 32];
    let mut code = [0u8; 12288];
    let mut columns = Columns {
        list_ids: &mut list_ids,
        list_counts: &mut list_counts,
        list_flags: &mut list_flags,
        function_ids: &mut function_ids,
        parameters: &mut parameters,
        maxima: &mut maxima,
        offsets: &mut offsets,
        lengths: &mut lengths,
        type_ids: &mut type_ids,
        descriptor_functions: &mut descriptor_functions,
        entries: &mut entries,
        code: &mut code,
    };
    let sizes = file::read_file(&mut columns, file)?;
    check_program(&fronts(&columns, &sizes))
}
