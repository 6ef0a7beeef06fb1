// 01's rules at one place, as code: one caller, the walk. The definition is rules' `look_of`.
ghost use Rattle.std.specs.Prelude.{◌≡◌, ℕ, ◌≤◌, ◌<◌, length};
ghost use Rattle.flow.specs.Decode.{flow_of, moved, target_of};
ghost use Rattle.rules.specs.Look.{Look, exit_at, unknown_at, flowing, moving, look_of};
ghost use Rattle.effects.specs.Stated.{known_in};
ghost use Rattle.stack.specs.Moves.{effect_at, on_moved, legal_of};

use crate::program_rules::Rules;
use effects::Sources;
use flow::Flow;
use rules::{Onward, Unknown, Violation};
use tables::Effect;

// 3 and 4.
fn unknown_at(offset: usize, unknown: Unknown) -> Violation
    ensures { result ≡ unknown_at offset unknown }
{
    match unknown {
        Unknown::Builtin(id) => Violation::UnknownBuiltin { offset, id },
        Unknown::Callee(callee) => Violation::UnknownCallee { offset, callee },
    }
}

// The effect of an instruction, or 3 or 4.
fn effect_at(
    sources: &Sources<'_>,
    offset: usize,
    op: u8,
    operands: &[u8],
) -> Result<Effect, Violation>
    ensures { result ≡ effect_at offset (known_in sources.now op operands.now) }
{
    let known = sources.effect_of(op, operands);
    known.map_err(|unknown| unknown_at(offset, unknown))
}

// What an effect makes of a depth, or 5 or 6.
#[tactic(auto, unfolding(rules::specs::Look::moving))]
fn moved_by(
    offset: usize,
    op: u8,
    maximum: u16,
    depth: u64,
    effect: Effect,
) -> Result<u64, Violation>
    requires { depth < 4294967296 }
    ensures { (go : ℕ → Look) → moving offset op maximum depth effect go ≡ on_moved go result }
{
    let needs = effect.takes;
    let takes = u64::from(needs);
    if depth < takes {
        return Err(Violation::Underflow {
            offset,
            opcode: op,
            needs,
            has: depth,
        });
    }
    let out = depth - takes + u64::from(effect.leaves);
    let peak = depth.max(out);
    if u64::from(maximum) < peak {
        return Err(Violation::ExceedsDeclaredMax {
            offset,
            depth: peak,
            declared: maximum,
        });
    }
    Ok(out)
}

// 9.
fn exit_at(offset: usize, expected: u64, depth: u64) -> Result<Onward, Violation>
    ensures { result ≡ exit_at offset expected depth }
{
    if depth == expected {
        Ok(Onward::Leaves)
    } else {
        Err(Violation::UnbalancedReturn {
            offset,
            expected,
            actual: depth,
        })
    }
}

// A branch's target, or 7.
fn legal_target(
    marks: &[u8],
    end: usize,
    offset: usize,
    next: usize,
    word: u16,
) -> Result<usize, Violation>
    ensures { result ≡ legal_of offset (target_of marks.now end (moved next word)) }
{
    flow::branch_target(marks, end, next, word).map_err(|target| Violation::InvalidJumpTarget {
        offset,
        target,
    })
}

// Where control goes, at the depth after: a branch's target before the next instruction. (The pool check's `flows` gives no violations.)
#[tactic(auto, unfolding(rules::specs::Look::flowing))]
fn flows(
    marks: &[u8],
    operands: &[u8],
    end: usize,
    offset: usize,
    next: usize,
    op: u8,
    out: u64,
) -> Result<Onward, Violation>
    ensures { result ≡ flowing marks.now end offset next op out (flow_of op operands.now) }
{
    match flow::flow_of(op, operands) {
        Flow::Next => Ok(Onward::Goes { out, to: next }),
        Flow::Jump(word) => {
            let to = legal_target(marks, end, offset, next, word)?;
            Ok(Onward::Goes { out, to })
        }
        Flow::Branch(word) => {
            let to = legal_target(marks, end, offset, next, word)?;
            Ok(Onward::Forks { out, to, next })
        }
        Flow::Return => exit_at(offset, u64::from(op == tables::RET), out),
    }
}

// The rules at an offset of the body at a depth. Most instructions have the table's effect and go on to the next: they are told apart first.
#[tactic(auto, using(rules::proofs::Cases::look_end, crate::proofs::Looking::plain_look, crate::proofs::Looking::look_stops))]
#[inline(always)]
pub(crate) fn look(
    rules: &Rules<'_>,
    marks: &[u8],
    body: &[u8],
    maximum: u16,
    offset: usize,
    depth: u64,
) -> Result<Onward, Violation>
    requires body_len_bound { (length body.now ≤ 65535) × (depth < 4294967296) }
    ensures { result ≡ look_of (known_in rules.now.sources) marks.now body.now maximum offset depth }
{
    let sources = &rules.sources;
    if body.len() <= offset {
        return exit_at(offset, 0, depth);
    }
    let op = body[offset];
    let size = cells::at(marks, offset);
    let next = offset + usize::from(size);
    if tables::plain_in(sources.words, op) {
        let effect = tables::effect_in(sources.words, op);
        let out = moved_by(offset, op, maximum, depth, effect)?;
        return Ok(Onward::Goes { out, to: next });
    }
    let operands = flow::operands_of(body, offset, size);
    let effect = effect_at(sources, offset, op, operands)?;
    let out = moved_by(offset, op, maximum, depth, effect)?;
    flows(marks, operands, body.len(), offset, next, op, out)
}
