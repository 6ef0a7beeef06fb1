// pools.bin: whole programs with descriptors, entries and a pool, and the pool check's answer, over the exported code list.
use crate::programs::{Directory, recorded_fields};
use crate::tally;
use crate::tally::Tally;
use answers::Fields;
use codes::CodeList;
use program::{Descriptors, PoolProgram, Program, Scratch};

// Sixteen words, each so many bytes behind the one before it.
fn words_at(data: &[u8], at: usize, step: u8) -> [u16; 16] {
    let mut cells = [0u16; 16];
    for row in 0..16usize {
        cells[row] = tally::word(data, at.wrapping_add(row * step as usize));
    }
    cells
}

// The answer to one program.
fn asked(program: &PoolProgram<'_>) -> Fields {
    let mut marks = [0u8; 256];
    let mut depths = [0u32; 257];
    let mut queue = [0u16; 514];
    let mut queue_depths = [0u16; 514];
    let mut cells = [0u8; 16384];
    let mut scratch = Scratch {
        marks: &mut marks,
        depths: &mut depths,
        queue: &mut queue,
        queue_depths: &mut queue_depths,
    };
    pool::fields(pool::pool_check(&mut scratch, &mut cells, program))
}

// One entry: how long it is, and whether it is the same.
fn entry<'a>(list: &CodeList<'a>, data: &'a [u8], at: usize) -> (usize, bool) {
    let n = cells::at(data, at) as usize;
    let rows = at.wrapping_add(1);
    let after = rows.wrapping_add(n * 10);
    let size = tally::word(data, after) as usize;
    let code = after.wrapping_add(2);
    let calls = code.wrapping_add(size);
    let described = tally::word(data, calls) as usize;
    let behind = calls.wrapping_add(2 + described * 4);
    let entered = cells::at(data, behind) as usize;
    let first = behind.wrapping_add(1);
    let pool_at = first.wrapping_add(entered * 2);
    let directory = Directory::read(data, rows);
    let types = words_at(data, calls.wrapping_add(2), 4);
    let callees = words_at(data, calls.wrapping_add(4), 4);
    let entries = words_at(data, first, 2);
    let program = Program {
        functions: directory.functions(n),
        list: *list,
        code: tally::part(data, code, size),
    };
    let descriptors = Descriptors {
        types: cells::part(&types, 0, described),
        callees: cells::part(&callees, 0, described),
    };
    let whole = PoolProgram {
        program,
        descriptors,
        entries: cells::part(&entries, 0, entered),
        pool: tally::word(data, pool_at),
    };
    let same = asked(&whole) == recorded_fields(data, pool_at.wrapping_add(2));
    (n * 10 + size + described * 4 + entered * 2 + 32, same)
}

pub fn replay<'a>(list: &CodeList<'a>, data: &'a [u8]) -> Tally {
    tally::each(data, |at| entry(list, data, at))
}
