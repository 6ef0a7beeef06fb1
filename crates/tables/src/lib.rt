// The instruction tables: what an opcode byte means. The definitions stand in specs/Set.antt, a row for each opcode, and specs/Packed.antt
// says how they are stored. A table is lent to the functions that read it, so that a loop copies it once and not at every look.
#![tactic(auto)]

mod stored_sizes;
mod stored_words;

ghost use Rattle.std.specs.Prelude.{◌≡◌};
ghost use Rattle.tables.specs.Set.{effect, no_movement};
ghost use Rattle.tables.specs.Packed.{size_table, word_table, size_in, effect_in, move_in, temp_in, plain_in};

// A function's id, and a function-block type's: one handed over for the other does not build.
#[derive(Clone, Copy, PartialEq, Eq, Debug)]
pub struct FunctionId(pub u16);

#[derive(Clone, Copy, PartialEq, Eq, Debug)]
pub struct FbTypeId(pub u16);

// What an instruction does to the operand stack: it takes so many values, and then leaves so many.
#[derive(Clone, Copy, PartialEq, Eq, Debug)]
pub struct Effect {
    pub takes: u16,
    pub leaves: u16,
}

impl Effect {
    // The effect that moves nothing.
    pub const NONE: Effect = Effect {
        takes: 0,
        leaves: 0,
    };

    pub fn new(takes: u16, leaves: u16) -> Effect
        ensures { result ≡ effect takes leaves }
    {
        Effect { takes, leaves }
    }
}

// Where an instruction's effect comes from: the table, or what its operands name.
#[derive(Clone, Copy, PartialEq, Eq, Debug)]
pub enum Move {
    Fixed(Effect),
    Builtin,
    Call,
    Method,
}

// What an instruction does to the temp buffers: the crate's temp_effect of 0, 1 and -1.
#[derive(Clone, Copy, PartialEq, Eq, Debug)]
pub enum TempEffect {
    Keeps,
    Borrows,
    GivesBack,
}

// What an operand is; its width in bytes is `width` of specs/Set.antt.
#[derive(Clone, Copy, PartialEq, Eq, Debug)]
pub enum Operand {
    ConstIndex,
    VarIndex,
    RefIndex,
    ArrayDescIndex,
    DataOffset,
    FieldIndex,
    FbTypeId,
    FunctionId,
    BuiltinId,
    JumpOffset,
    CmpOp,
    MaxLength,
    CharWidth,
    NumFields,
    FieldVarOffset,
    ParamVarOffset,
}

pub const JMP: u8 = 0x7C;

pub const JMP_IF_NOT: u8 = 0x80;

pub const CALL: u8 = 0x84;

pub const RET: u8 = 0x88;

pub const RET_VOID: u8 = 0x8C;

pub const BUILTIN: u8 = 0x94;

pub const FB_CALL: u8 = 0xA4;

pub const CMP_BR_I32: u8 = 0xF4;

pub const CMP_BR_I64: u8 = 0xF5;

pub const METHOD_CALL: u8 = 0xF8;

// The table of sizes, to be lent.
pub fn sizes() -> [u8; 256]
    ensures { result ≡ size_table }
{
    stored_sizes::SIZES
}

// The table of effects, to be lent.
pub fn words() -> [u16; 256]
    ensures { result ≡ word_table }
{
    stored_words::WORDS
}

// The effect that moves nothing, as a value.
pub fn no_movement() -> Effect
    ensures { result ≡ no_movement }
{
    Effect::NONE
}

// The size of the instruction that starts with the byte op, or 0 where op is unassigned.
pub fn size_in(sizes: &[u8; 256], op: u8) -> u8
    ensures { result ≡ size_in sizes.now op }
{
    sizes[op as usize]
}

// What the table says that op takes and leaves; nothing where op is unassigned or its operands say.
pub fn effect_in(words: &[u16; 256], op: u8) -> Effect
    ensures { result ≡ effect_in words.now op }
{
    let word = words[op as usize];
    Effect::new(word % 4, word / 4 % 4)
}

// Where the effect of op comes from. The sort is a number, since it is a part of a stored word (`sort_move` in specs/Packed.antt). Inlined: BUILTINs
// take a twentieth less.
#[inline(always)]
pub fn move_in(words: &[u16; 256], op: u8) -> Move
    ensures { result ≡ move_in words.now op }
{
    let sort = words[op as usize] / 64;
    match sort {
        4 => Move::Builtin,
        5 => Move::Call,
        6 => Move::Method,
        _ => Move::Fixed(effect_in(words, op)),
    }
}

// What op does to the temp buffers, another part of the word.
pub fn temp_in(words: &[u16; 256], op: u8) -> TempEffect
    ensures { result ≡ temp_in words.now op }
{
    let code = words[op as usize] / 16 % 4;
    match code {
        1 => TempEffect::Borrows,
        2 => TempEffect::GivesBack,
        _ => TempEffect::Keeps,
    }
}

// Whether op is plain: its effect is the table's, the next instruction follows, and it opens no function.
pub fn plain_in(words: &[u16; 256], op: u8) -> bool
    ensures { result ≡ plain_in words.now op }
{
    words[op as usize] / 64 == 1
}
