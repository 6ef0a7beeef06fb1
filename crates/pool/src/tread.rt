// 01's rules of the temp buffers at one place, as code: one caller, the walk. The definition is buffers' `tread_of`.
ghost use Rattle.std.specs.Prelude.{◌≡◌, ◌≤◌, ◌<◌, length};
ghost use Rattle.flow.specs.Decode.{flow_of};
ghost use Rattle.buffers.specs.Tread.{sum_past, flowing, bounded};
ghost use Rattle.pool.specs.Stated.{rule_in};

use crate::temp_rules::TempRules;
use buffers::{Tread, Way};
use flow::Flow;
use tables::TempEffect;

// The buffers held after an instruction, by sums in the place of a choice: a choice is a jump in every turn of the walk.
fn summed(effect: TempEffect, held: u32) -> u32
    requires { held < 65536 }
    ensures { result ≡ sum_past effect held }
{
    let more = u32::from(effect == TempEffect::Borrows);
    let fewer = u32::from(effect == TempEffect::GivesBack);
    (held + more).saturating_sub(fewer)
}

// A path ends where its sum passes the pool.
#[tactic(auto, unfolding(buffers::specs::Tread::bounded))]
fn within(pool: u16, sum: u32, way: Way) -> Way
    ensures { result ≡ bounded pool sum way }
{
    if (pool as u32) < sum {
        return Way::Ends;
    }
    way
}

// Where control goes: a branch's target before the next instruction.
#[tactic(auto, unfolding(buffers::specs::Tread::flowing))]
fn flows(marks: &[u8], operands: &[u8], end: usize, next: usize, op: u8) -> Way
    ensures { result ≡ flowing marks.now end next (flow_of op operands.now) }
{
    match flow::flow_of(op, operands) {
        Flow::Next => Way::Goes(next),
        Flow::Jump(word) => match flow::branch_target(marks, end, next, word) {
            Ok(to) => Way::Goes(to),
            Err(_) => Way::Astray,
        },
        Flow::Branch(word) => match flow::branch_target(marks, end, next, word) {
            Ok(to) => Way::Forks { to, next },
            Err(_) => Way::Astray,
        },
        Flow::Return => Way::Ends,
    }
}

// An instruction at an offset of the body, with so many buffers held.
pub(crate) fn tread(
    rules: &TempRules<'_>,
    marks: &[u8],
    body: &[u8],
    offset: usize,
    held: u32,
) -> Tread
    requires body_len_bound { (length body.now ≤ 65535) × (held < 65536) }
    ensures { result ≡ rule_in rules.now.sources marks.now body.now offset held }
{
    if body.len() <= offset {
        return Tread {
            sum: held,
            opens: 0,
            way: Way::Ends,
        };
    }
    let op = body[offset];
    let size = cells::at(marks, offset);
    let next = offset + size as usize;
    let sources = &rules.sources;
    let pool = sources.program.pool;
    if tables::plain_in(sources.words, op) {
        let sum = summed(tables::temp_in(sources.words, op), held);
        let way = within(pool, sum, Way::Goes(next));
        return Tread { sum, opens: 0, way };
    }
    let operands = flow::operands_of(body, offset, size);
    let sum = summed(sources.temp_of(op, operands), held);
    let opens = sources.opened_by(op, operands);
    let way = within(pool, sum, flows(marks, operands, body.len(), next, op));
    Tread { sum, opens, way }
}
