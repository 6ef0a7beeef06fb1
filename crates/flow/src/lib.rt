// Decoding, operands, control flow and branch targets. Of the instruction tables only their promises are used, over any lent table of sizes.
#![tactic(auto)]

pub mod starts;

ghost use Rattle.std.specs.Prelude.{◌≡◌};
ghost use Rattle.tables.specs.Packed.{size_in};
ghost use Rattle.flow.specs.Decode.{step_by, operands_at, word_at, flow_of, moved, target_of};

// An instruction: its opcode, and its size with the operands.
#[derive(Clone, Copy, PartialEq, Eq, Debug)]
pub struct Instruction {
    pub opcode: u8,
    pub size: u8,
}

// A decoding stop before a body's end: a byte that is no opcode, or an opcode whose operands run past the end.
#[derive(Clone, Copy, PartialEq, Eq, Debug)]
pub enum Stop {
    Unknown { offset: usize, byte: u8 },
    Truncated { offset: usize, opcode: u8 },
}

// Where control goes. A branch carries its offset as the word that stands in the code.
#[derive(Clone, Copy, PartialEq, Eq, Debug)]
pub enum Flow {
    Next,
    Jump(u16),
    Branch(u16),
    Return,
}

// A place counted from the body's start: so many bytes after it, or before it. No i64: `moved` answers any `next` above 65,536 as it came, and
// no signed number holds every usize.
#[derive(Clone, Copy, PartialEq, Eq, Debug)]
pub enum Spot {
    At(usize),
    Before(usize),
}

// The decoding step, in plain form: the instruction at an offset, or none at the body's end and past it.
pub fn decode_step(
    sizes: &[u8; 256],
    body: &[u8],
    offset: usize,
) -> Result<Option<Instruction>, Stop>
    ensures { result ≡ step_by (size_in sizes.now) body.now offset }
{
    if body.len() <= offset {
        return Ok(None);
    }
    let byte = body[offset];
    let size = tables::size_in(sizes, byte);
    if size == 0 {
        return Err(Stop::Unknown { offset, byte });
    }
    let opcode = byte;
    if usize::from(size) <= body.len() - offset {
        Ok(Some(Instruction { opcode, size }))
    } else {
        Err(Stop::Truncated { offset, opcode })
    }
}

// The operand bytes, as a part of the body: those after the opcode byte, up to the instruction's size.
pub fn operands_of(body: &[u8], at: usize, size: u8) -> &[u8]
    ensures { result.now ≡ operands_at body.now at size }
{
    if body.len() <= at {
        return cells::part(body, at, 0);
    }
    if size == 0 {
        return cells::part(body, at, 0);
    }
    cells::part(body, at + 1, usize::from(size) - 1)
}

// Two bytes, low byte first.
pub fn word_at(operands: &[u8], i: usize) -> u16
    ensures { result ≡ word_at operands.now i }
{
    if operands.len() <= i {
        return 0;
    }
    u16::from(operands[i]) + u16::from(cells::at(operands, i + 1)) * 256
}

// The function that CALL and METHOD_CALL name, the type that FB_CALL names, and the built-in that BUILTIN names.
pub fn callee_of(operands: &[u8]) -> tables::FunctionId
    ensures { result.0 ≡ word_at operands.now 0 }
{
    tables::FunctionId(word_at(operands, 0))
}

pub fn fb_type_of(operands: &[u8]) -> tables::FbTypeId
    ensures { result.0 ≡ word_at operands.now 0 }
{
    tables::FbTypeId(word_at(operands, 0))
}

pub fn builtin_of(operands: &[u8]) -> u16
    ensures { result ≡ word_at operands.now 0 }
{
    word_at(operands, 0)
}

// Where control goes after op.
pub fn flow_of(op: u8, operands: &[u8]) -> Flow
    ensures { result ≡ flow_of op operands.now }
{
    match op {
        tables::JMP => Flow::Jump(word_at(operands, 0)),
        tables::JMP_IF_NOT => Flow::Branch(word_at(operands, 0)),
        tables::CMP_BR_I32 => Flow::Branch(word_at(operands, 5)),
        tables::CMP_BR_I64 => Flow::Branch(word_at(operands, 5)),
        tables::RET => Flow::Return,
        tables::RET_VOID => Flow::Return,
        _ => Flow::Next,
    }
}

// The place that lies as far from next as the word says, read as a signed number. No body is longer than 65,536 bytes: a next
// beyond that is answered as it came.
pub fn move_by(next: usize, word: u16) -> Spot
    ensures { result ≡ moved next word }
{
    if 65536 < next {
        return Spot::At(next);
    }
    let n = word as usize;
    if n < 32768 {
        return Spot::At(next + n);
    }
    let back = 65536 - n;
    if back <= next {
        Spot::At(next - back)
    } else {
        Spot::Before(back - next)
    }
}

// A branch's target: legal if it is the body's length or an instruction's start below it; else the place that is none.
pub fn branch_target(marks: &[u8], length: usize, next: usize, word: u16) -> Result<usize, Spot>
    ensures { result ≡ target_of marks.now length (moved next word) }
{
    let spot = move_by(next, word);
    match spot {
        Spot::Before(_) => Err(spot),
        Spot::At(to) => {
            if to == length {
                return Ok(to);
            }
            if length < to {
                return Err(spot);
            }
            if cells::at(marks, to) == 0 {
                Err(spot)
            } else {
                Ok(to)
            }
        }
    }
}
