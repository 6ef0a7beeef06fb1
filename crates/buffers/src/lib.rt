// 01's rules of the temp buffers: what an instruction does at an offset with so many buffers held, and what a body's walk gives. The rules themselves
// are definitions (specs/Tread.antt, specs/Walk.antt); what they mean is proved in proofs/Theorems.antt.

#![tactic(auto)]

ghost use Rattle.std.specs.Prelude.{◌≡◌};
ghost use Rattle.buffers.specs.declared.Unwalked.TheVariants.{Undecodable};

use flow::Stop;

// Where control goes: the path ends, a branch has no legal target, one successor, or the branch target and the next instruction. Astray is no error
// yet: past the pool the path ends before its target counts (`bounded`).
#[derive(Clone, Copy, PartialEq, Eq, Debug)]
pub enum Way {
    Ends,
    Astray,
    Goes(usize),
    Forks { to: usize, next: usize },
}

// What treading an instruction gives: the sum that it makes, the cell of the function that it opens (the function's row and 1; 0 for none), and the
// way on.
#[derive(Clone, Copy, PartialEq, Eq, Debug)]
pub struct Tread {
    pub sum: u32,
    pub opens: u8,
    pub way: Way,
}

// What a body's walk gives: its weight and its peak offset.
#[derive(Clone, Copy, PartialEq, Eq, Debug)]
pub struct Usage {
    pub weight: u32,
    pub peak: usize,
}

// Why a body's walk gives none: 22, or 23.
#[derive(Clone, Copy, PartialEq, Eq, Debug)]
pub enum Unwalked {
    Undecodable,
    QueueFull,
}

// "Undecodable: decoding stops".
impl From<Stop> for Unwalked {
    ghost from_gives = { λ _ unwalked. unwalked ≡ Undecodable };

    fn from(_stop: Stop) -> Unwalked {
        Unwalked::Undecodable
    }
}
