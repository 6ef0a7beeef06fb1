// bodies.bin and targets.bin: how bodies decode, where their instructions start, whether RET is among them, and where branches lead.
use crate::tally;
use crate::tally::Tally;
use flow::{Flow, Spot, Stop};

// How decoding ends as its entry has it.
fn recorded_end(outcome: u8, offset: usize, byte: u8) -> Option<Result<(), Stop>> {
    match outcome {
        0 => Some(Ok(())),
        1 => Some(Err(Stop::Unknown { offset, byte })),
        2 => Some(Err(Stop::Truncated {
            offset,
            opcode: byte,
        })),
        _ => None,
    }
}

// One entry of bodies.bin: how long it is, and whether it is the same.
fn body_entry(sizes: &[u8; 256], data: &[u8], at: usize) -> (usize, bool) {
    let n = cells::at(data, at) as usize;
    let body = tally::part(data, at.wrapping_add(1), n);
    let after = at.wrapping_add(1 + n);
    let mut marks = [0u8; 256];
    let decoded = flow::starts::mark_starts(&mut marks, sizes, body);
    let outcome = tally::byte(data, after, 0);
    let offset = tally::byte(data, after, 1) as usize;
    let recorded = recorded_end(outcome, offset, tally::byte(data, after, 2));
    let recorded_marks = tally::part(data, after.wrapping_add(3), n);
    let ret = tally::byte(data, after.wrapping_add(n), 3);
    let same = Some(decoded) == recorded
        && tally::part(&marks, 0, n) == recorded_marks
        && flow::starts::has_ret(sizes, body) == (ret == 1);
    (5 + 2 * n, same)
}

pub fn replay(data: &[u8]) -> Tally {
    let sizes = tables::sizes();
    tally::each(data, |at| body_entry(&sizes, data, at))
}

// Compared with the two numbers of the file's entry.
fn same_target(target: Result<usize, Spot>, legal: u8, recorded: u32) -> bool {
    match target {
        Ok(to) => legal == 1 && to == recorded as usize,
        Err(spot) => legal == 0 && answers::signed_word(spot) == u64::from(recorded),
    }
}

// The way on and the target of the instruction at an offset of a body whose starts are marked.
fn same_way(marks: &[u8], body: &[u8], offset: usize, way: u8, legal: u8, recorded: u32) -> bool {
    let op = cells::at(body, offset);
    let size = cells::at(marks, offset);
    let next = offset.wrapping_add(size as usize);
    let (kind, word) = match flow::flow_of(op, flow::operands_of(body, offset, size)) {
        Flow::Next => return way == 0,
        Flow::Return => return way == 3,
        Flow::Jump(word) => (1, word),
        Flow::Branch(word) => (2, word),
    };
    let target = flow::branch_target(marks, body.len(), next, word);
    way == kind && same_target(target, legal, recorded)
}

// One entry of targets.bin: how long it is, and whether it is the same.
fn branch_entry(sizes: &[u8; 256], data: &[u8], at: usize) -> (usize, bool) {
    let n = cells::at(data, at) as usize;
    let body = tally::part(data, at.wrapping_add(1), n);
    let after = at.wrapping_add(1 + n);
    let mut marks = [0u8; 256];
    let _ = flow::starts::mark_starts(&mut marks, sizes, body);
    let offset = tally::byte(data, after, 0) as usize;
    let way = tally::byte(data, after, 1);
    let legal = tally::byte(data, after, 2);
    let recorded = tally::double_word(data, after.wrapping_add(3));
    (8 + n, same_way(&marks, body, offset, way, legal, recorded))
}

pub fn replay_targets(data: &[u8]) -> Tally {
    let sizes = tables::sizes();
    tally::each(data, |at| branch_entry(&sizes, data, at))
}
