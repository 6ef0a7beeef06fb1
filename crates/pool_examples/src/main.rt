// 01's examples of the pool check, run: a line for each with number, function, offset, a, b, c. The scratch holds junk before each call; what is not
// zero after it is counted at the line's end.
#![tactic(auto)]

use cells::Cell;
use codes::CodeList;
use program::{Descriptors, Functions, PoolProgram, Program, Scratch};
use std::io;

// How many cells are not zero.
fn not_zero<T: Cell + PartialEq>(column: &[T]) -> usize {
    column.iter().filter(|cell| **cell != T::zero()).count()
}

// Functions 1, 2, .. without list rows and descriptors, with scratch of junk and some to spare. Its arguments are what one example says.
fn run<'a>(
    rt: &impl Print,
    name: &str,
    ids: &'a [u16],
    offsets: &'a [usize],
    lengths: &'a [usize],
    code: &'a [u8],
    entries: &'a [u16],
    pool: u16,
) -> io::Result<()> {
    let functions = Functions {
        ids,
        parameters: ids,
        maxima: ids,
        offsets,
        lengths,
    };
    let list = CodeList {
        ids: &[],
        counts: &[],
        flags: &[],
    };
    let descriptors = Descriptors {
        types: &[],
        callees: &[],
    };
    let program = Program {
        functions,
        list,
        code,
    };
    let whole = PoolProgram {
        program,
        descriptors,
        entries,
        pool,
    };
    let mut marks = [7u8; 40];
    let mut depths = [7u32; 41];
    let mut queue = [7u16; 82];
    let mut queue_depths = [7u16; 82];
    let mut cells = [7u8; 16400];
    let mut scratch = Scratch {
        marks: &mut marks,
        depths: &mut depths,
        queue: &mut queue,
        queue_depths: &mut queue_depths,
    };
    let fields = pool::fields(pool::pool_check(&mut scratch, &mut cells, &whole));
    let left = not_zero(&marks)
        .saturating_add(not_zero(&depths))
        .saturating_add(not_zero(&queue))
        .saturating_add(not_zero(&queue_depths))
        .saturating_add(not_zero(&cells));
    println!(rt; "{name}: {fields}, cells not zero: {left}")
}

fn main(rt: HostRuntime) -> io::Result<()> {
    let grows = b"\xBC\x00\x00\x00\x00\x7C\xF8\xFF";
    run(
        &rt,
        "a growing loop, pool 3",
        &[1],
        &[0],
        &[8],
        grows,
        &[1],
        3,
    )?;
    run(&rt, "without entries", &[1], &[0], &[8], grows, &[], 3)?;
    run(
        &rt,
        "given back, pool 0",
        &[1],
        &[0],
        &[5],
        b"\xC0\x00\x00\x00\x00",
        &[1],
        0,
    )?;
    let calls = b"\x84\x02\x00\x00\x00\xBC\x00\x00\x00\x00\xBC\x00\x00\x00\x00";
    run(
        &rt,
        "1 calls 2, pool 2",
        &[1, 2],
        &[0, 10],
        &[10, 5],
        calls,
        &[1],
        2,
    )?;
    run(
        &rt,
        "1 calls 2, pool 1",
        &[1, 2],
        &[0, 10],
        &[10, 5],
        calls,
        &[1],
        1,
    )?;
    let each_other = b"\x84\x02\x00\x00\x00\x84\x01\x00\x00\x00";
    run(
        &rt,
        "each other",
        &[1, 2],
        &[0, 5],
        &[5, 5],
        each_other,
        &[1],
        9,
    )?;
    run(&rt, "pool 65535", &[1], &[0], &[8], grows, &[1], 65535)
}
