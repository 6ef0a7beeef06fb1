// 01's rules of the operand stack: why an instruction has no effect, what stands against one at an offset and a depth, and where control goes on.
// The rules themselves are definitions (specs/Look.antt, specs/Walk.antt); what acceptance means is proved in proofs/Exact.antt.
#![tactic(auto)]

ghost use Rattle.std.specs.Prelude.{◌≡◌};
ghost use Rattle.rules.specs.Stops.{of_stop};

use flow::{Spot, Stop};

// Why an instruction has no effect in its program: no row of the code list, or of the directory, has the id that it names.
#[derive(Clone, Copy, PartialEq, Eq, Debug)]
pub enum Unknown {
    Builtin(u16),
    Callee(u16),
}

// What stands against a body, each with the offset in it. Depths are as wide as a sum of them.
#[derive(Clone, Copy, PartialEq, Eq, Debug)]
pub enum Violation {
    UnknownOpcode {
        offset: usize,
        byte: u8,
    },
    TruncatedInstruction {
        offset: usize,
        opcode: u8,
    },
    UnknownBuiltin {
        offset: usize,
        id: u16,
    },
    UnknownCallee {
        offset: usize,
        callee: u16,
    },
    Underflow {
        offset: usize,
        opcode: u8,
        needs: u16,
        has: u64,
    },
    ExceedsDeclaredMax {
        offset: usize,
        depth: u64,
        declared: u16,
    },
    InvalidJumpTarget {
        offset: usize,
        target: Spot,
    },
    MergeConflict {
        offset: usize,
        existing: u64,
        incoming: u64,
    },
    UnbalancedReturn {
        offset: usize,
        expected: u64,
        actual: u64,
    },
}

// A decoding stop before a body's end stands against it.
impl From<Stop> for Violation {
    ghost from_gives = { λ stop violation. violation ≡ of_stop stop };

    fn from(stop: Stop) -> Violation {
        match stop {
            Stop::Unknown { offset, byte } => Violation::UnknownOpcode { offset, byte },
            Stop::Truncated { offset, opcode } => {
                Violation::TruncatedInstruction { offset, opcode }
            }
        }
    }
}

// Where control goes on where no rule is broken: out of the body, or to its successors at the depth after.
#[derive(Clone, Copy, PartialEq, Eq, Debug)]
pub enum Onward {
    Leaves,
    Goes { out: u64, to: usize },
    Forks { out: u64, to: usize, next: usize },
}
