// The starts of a whole body: where its instructions begin, how its decoding ends, and whether RET is among them.
ghost use Rattle.std.specs.Prelude.{◌≡◌, ◌≤◌, length};
ghost use Rattle.tables.specs.Packed.{size_in};
ghost use Rattle.flow.specs.Walk.{walk_by, end_of, mark_all, has_ret};
ghost use Rattle.flow.specs.Marked.{Marked, Skipped};

use crate::{Stop, decode_step};

// Marks a stretch of instructions of one byte, and answers where it ends: most instructions have one byte, and a loop of their own waits
// for no size to find the next.
fn mark_ones(marks: &mut [u8], sizes: &[u8; 256], body: &[u8], from: usize) -> usize
    requires { from ≤ length body.now }
    ensures { Marked (size_in sizes.now) body.now from marks.old result marks.new }
{
    for at in from..body.len() {
        if tables::size_in(sizes, body[at]) != 1 {
            return at;
        }
        cells::put(marks, at, 1);
    }
    body.len()
}

// Marks each instruction's first byte with the instruction's size, up to the first decoding stop.
pub fn mark_starts(marks: &mut [u8], sizes: &[u8; 256], body: &[u8]) -> Result<(), Stop>
    ensures { (result ≡ end_of (walk_by (size_in sizes.now) body.now 0)) × (marks.new ≡ mark_all (walk_by (size_in sizes.now) body.now 0) marks.old) }
{
    let mut at = mark_ones(marks, sizes, body, 0);
    while let Some(instruction) = decode_step(sizes, body, at)? {
        cells::put(marks, at, instruction.size);
        at = mark_ones(marks, sizes, body, at + usize::from(instruction.size));
    }
    Ok(())
}

// Past a stretch of instructions of one byte other than RET.
fn skip_ones(sizes: &[u8; 256], body: &[u8], from: usize) -> usize
    requires { from ≤ length body.now }
    ensures { Skipped (size_in sizes.now) body.now from result }
{
    for at in from..body.len() {
        let op = body[at];
        if op == tables::RET || tables::size_in(sizes, op) != 1 {
            return at;
        }
    }
    body.len()
}

// Whether RET is among the instructions before the first decoding stop.
pub fn has_ret(sizes: &[u8; 256], body: &[u8]) -> bool
    ensures { result ≡ has_ret (walk_by (size_in sizes.now) body.now 0) }
{
    let mut at = skip_ones(sizes, body, 0);
    while let Some(instruction) = decode_step(sizes, body, at).unwrap_or(None) {
        if instruction.opcode == tables::RET {
            return true;
        }
        at = skip_ones(sizes, body, at + usize::from(instruction.size));
    }
    false
}
