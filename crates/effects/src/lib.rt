// What an instruction takes and leaves in its program: the table's effect, or what the code list or the function directory says of the id
// that it names. Whether a function gives back a value is decoded once for a program, into a column.
#![tactic(auto)]

ghost use Rattle.std.specs.Prelude.{◌≡◌, cond};
ghost use Rattle.tables.specs.Packed.{size_in};
ghost use Rattle.program.specs.Stated.{list_in};
ghost use Rattle.effects.specs.Effects.{builtin_by, call_by, method_by, filled, gives_back, names_method, given_back};
ghost use Rattle.effects.specs.Stated.{known_in};

use program::Program;
use rules::Unknown;
use tables::{Effect, FunctionId, Move};

// Where the effects of a program's instructions are read: the packed table, hints of the code list (any will do), what each function gives
// back (1 if it gives back a value, else 0), and the program itself.
#[derive(Clone, Copy)]
pub struct Sources<'a> {
    pub words: &'a [u16; 256],
    pub hints: &'a [u16],
    pub given: &'a [u8],
    pub program: Program<'a>,
}

impl Sources<'_> {
    // BUILTIN takes its listed count and leaves 1.
    #[tactic(auto, unfolding(crate::specs::Effects::builtin_by))]
    fn builtin_effect(&self, id: u16) -> Result<Effect, Unknown>
        ensures { result ≡ builtin_by self.now.hints.now (list_in self.now.program.list) id }
    {
        let entry = codes::look_up(self.hints, &self.program.list, id);
        let listed = entry.ok_or(Unknown::Builtin(id))?;
        Ok(Effect::new(listed.count, 1))
    }

    // CALL and METHOD_CALL take the callee's parameter count. CALL leaves 1, METHOD_CALL what the callee gives back. No closure for
    // what is left: its contract would be longer than this body.
    #[tactic(auto, unfolding(crate::specs::Effects::call_by, crate::specs::Effects::method_by))]
    fn call_effect(&self, callee: FunctionId, is_method: bool) -> Result<Effect, Unknown>
        ensures { result ≡ cond is_method (method_by self.now.program.functions.ids.now self.now.program.functions.parameters.now self.now.given.now callee.0) (call_by self.now.program.functions.ids.now self.now.program.functions.parameters.now callee.0) }
    {
        let id = callee.0;
        let functions = &self.program.functions;
        let row = program::function_row(functions.ids, id).ok_or(Unknown::Callee(id))?;
        let leaves = if is_method {
            cells::at(self.given, row) as u16
        } else {
            1
        };
        Ok(Effect::new(cells::at(functions.parameters, row), leaves))
    }

    // The effect of the instruction op with these operands.
    #[tactic(auto, unfolding(crate::specs::Effects::known_by))]
    pub fn effect_of(&self, op: u8, operands: &[u8]) -> Result<Effect, Unknown>
        ensures { result ≡ known_in self.now op operands.now }
    {
        match tables::move_in(self.words, op) {
            Move::Fixed(effect) => Ok(effect),
            Move::Builtin => self.builtin_effect(flow::builtin_of(operands)),
            Move::Call => self.call_effect(flow::callee_of(operands), false),
            Move::Method => self.call_effect(flow::callee_of(operands), true),
        }
    }
}

// 1 if RET is among the instructions of a body before its first decoding stop, else 0.
#[tactic(auto, unfolding(crate::specs::Effects::gives_back))]
fn gives_back(sizes: &[u8; 256], code: &[u8], offset: usize, length: usize) -> u8
    ensures { result ≡ gives_back (size_in sizes.now) code.now offset length }
{
    let body = cells::part(code, offset, length);
    u8::from(flow::starts::has_ret(sizes, body))
}

// A cell for each row of the directory.
fn fill_given(given: &mut [u8], sizes: &[u8; 256], program: &Program<'_>)
    ensures { given.new ≡ filled (size_in sizes.now) program.now.functions.offsets.now program.now.functions.lengths.now program.now.code.now given.old }
{
    let functions = &program.functions;
    for row in 0..functions.offsets.len() {
        let length = cells::at(functions.lengths, row);
        let value = gives_back(sizes, program.code, functions.offsets[row], length);
        cells::put(given, row, value);
    }
}

// Whether a byte of the code is METHOD_CALL's, be it an opcode or not. No early end: the compiler then looks at many bytes at once.
fn names_method(code: &[u8]) -> bool
    ensures { result ≡ names_method code.now }
{
    let mut named = false;
    for byte in code {
        named |= *byte == tables::METHOD_CALL;
    }
    named
}

// What each function gives back, where a METHOD_CALL may ask for it: else the cells stay as they were and no body is decoded.
#[tactic(auto, unfolding(crate::specs::Effects::given_back))]
pub fn given_back(given: &mut [u8], sizes: &[u8; 256], program: &Program<'_>)
    ensures { given.new ≡ given_back (size_in sizes.now) program.now.functions.offsets.now program.now.functions.lengths.now program.now.code.now given.old }
{
    if names_method(program.code) {
        fill_given(given, sizes, program);
    }
}
