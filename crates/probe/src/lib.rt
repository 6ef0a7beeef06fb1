// The leaves for the tests of other languages: each function hands numbers and slices to a leaf and packs what it answers into one number,
// as tests/driver/probe.h says: C lends every column apart. Nothing here is part of the product.
#![tactic(auto)]

use answers::Fields;
use codes::CodeList;
use flow::{Flow, Stop};
use program::{Descriptors, Functions, PoolProgram, Program, Scratch};

// An offset, shifted by two bits to make room for a kind. No body is as long as 2 to the power of 30.
fn packed(kind: u32, offset: usize) -> u32 {
    (offset % 0x4000_0000) as u32 * 4 + kind % 4
}

#[unsafe(no_mangle)]
pub extern "C" fn probe_size(op: u8) -> u32 {
    let sizes = tables::sizes();
    tables::size_in(&sizes, op) as u32
}

#[unsafe(no_mangle)]
pub extern "C" fn probe_starts(body: &[u8], marks: &mut [u8]) -> u32 {
    let sizes = tables::sizes();
    match flow::starts::mark_starts(marks, &sizes, body) {
        Ok(()) => 0,
        Err(Stop::Unknown { offset, byte: _ }) => packed(1, offset),
        Err(Stop::Truncated { offset, opcode: _ }) => packed(2, offset),
    }
}

#[unsafe(no_mangle)]
pub extern "C" fn probe_has_ret(body: &[u8]) -> u32 {
    let sizes = tables::sizes();
    u32::from(flow::starts::has_ret(&sizes, body))
}

#[unsafe(no_mangle)]
pub extern "C" fn probe_flow(op: u8, operands: &[u8]) -> u32 {
    match flow::flow_of(op, operands) {
        Flow::Next => 0,
        Flow::Jump(word) => word as u32 * 4 + 1,
        Flow::Branch(word) => word as u32 * 4 + 2,
        Flow::Return => 3,
    }
}

#[unsafe(no_mangle)]
pub extern "C" fn probe_target(next: usize, word: u16, marks: &[u8], len: usize) -> u64 {
    match flow::branch_target(marks, len, next, word) {
        Ok(to) => (to % 0x1_0000_0000) as u64 * 2 + 1,
        Err(spot) => answers::signed_word(spot) % 0x1_0000_0000 * 2,
    }
}

#[unsafe(no_mangle)]
pub extern "C" fn probe_lookup(ids: &[u16], counts: &[u16], flags: &[u16], id: u16) -> u32 {
    match codes::lookup(&CodeList { ids, counts, flags }, id) {
        None => 0,
        Some(listed) => listed.count as u32 * 4 + (listed.flag % 2) as u32 * 2 + 1,
    }
}

fn put_fields(answer: &mut [u32], fields: Fields) -> u32 {
    cells::put(answer, 0, fields.number);
    cells::put(answer, 1, fields.function);
    cells::put(answer, 2, fields.offset);
    cells::put(answer, 3, fields.a);
    cells::put(answer, 4, fields.b);
    cells::put(answer, 5, fields.c);
    fields.number
}

// The stack call: its six fields go into the answer.
#[unsafe(no_mangle)]
pub extern "C" fn probe_stack(
    answer: &mut [u32],
    marks: &mut [u8],
    depths: &mut [u32],
    queue: &mut [u16],
    queue_depths: &mut [u16],
    ids: &[u16],
    parameters: &[u16],
    maxima: &[u16],
    offsets: &[usize],
    lengths: &[usize],
    list_ids: &[u16],
    counts: &[u16],
    flags: &[u16],
    code: &[u8],
) -> u32 {
    let functions = Functions {
        ids,
        parameters,
        maxima,
        offsets,
        lengths,
    };
    let list = CodeList {
        ids: list_ids,
        counts,
        flags,
    };
    let program = Program {
        functions,
        list,
        code,
    };
    let mut scratch = Scratch {
        marks,
        depths,
        queue,
        queue_depths,
    };
    put_fields(
        answer,
        stack::fields(stack::stack_check(&mut scratch, &program)),
    )
}

// The pool call: its six fields go into the answer.
#[unsafe(no_mangle)]
pub extern "C" fn probe_pool(
    answer: &mut [u32],
    marks: &mut [u8],
    depths: &mut [u32],
    queue: &mut [u16],
    queue_depths: &mut [u16],
    callee_cells: &mut [u8],
    ids: &[u16],
    parameters: &[u16],
    maxima: &[u16],
    offsets: &[usize],
    lengths: &[usize],
    list_ids: &[u16],
    counts: &[u16],
    flags: &[u16],
    code: &[u8],
    types: &[u16],
    callees: &[u16],
    entries: &[u16],
    pool: u16,
) -> u32 {
    let functions = Functions {
        ids,
        parameters,
        maxima,
        offsets,
        lengths,
    };
    let list = CodeList {
        ids: list_ids,
        counts,
        flags,
    };
    let program = Program {
        functions,
        list,
        code,
    };
    let whole = PoolProgram {
        program,
        descriptors: Descriptors { types, callees },
        entries,
        pool,
    };
    let mut scratch = Scratch {
        marks,
        depths,
        queue,
        queue_depths,
    };
    let verdict = pool::pool_check(&mut scratch, callee_cells, &whole);
    put_fields(answer, pool::fields(verdict))
}
