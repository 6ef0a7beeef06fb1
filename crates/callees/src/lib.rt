// What an instruction does to the temp buffers in its program, and which function it opens: the table's word, or what the code list, the function
// directory and the descriptors say of the id that it names.
#![tactic(auto)]

ghost use Rattle.std.specs.Prelude.{◌≡◌};
ghost use Rattle.codes.specs.Lookup.{place_of, hinted_of};
ghost use Rattle.program.specs.Seat.{seat_of};
ghost use Rattle.callees.specs.Callees.{on_flag, cell_at, block_by};
ghost use Rattle.callees.specs.Stated.{temps_in, opens_in};

use program::PoolProgram;
use tables::{FbTypeId, FunctionId, Move, TempEffect};

// What an instruction's word is read from: the table of words, hints to the code list's rows, and the program.
#[derive(Clone, Copy)]
pub struct Sources<'a> {
    pub words: &'a [u16; 256],
    pub hints: &'a [u16],
    pub program: PoolProgram<'a>,
}

// A function's cell: its row and 1. Unknown ids have none.
fn cell_of(ids: &[u16], callee: FunctionId) -> u8
    ensures { result ≡ cell_at (seat_of ids.now callee.0) }
{
    let Some(row) = program::function_row(ids, callee.0) else {
        return 0;
    };
    if row < 128 { (row + 1) as u8 } else { 0 }
}

impl Sources<'_> {
    // A BUILTIN marked as borrowing borrows; any other does what the table says.
    fn builtin_temp(&self, id: u16, own: TempEffect) -> TempEffect
        ensures { result ≡ on_flag self.now.program.program.list.flags.now own (hinted_of self.now.hints.now self.now.program.program.list.ids.now id) }
    {
        let list = &self.program.program.list;
        if let Some(row) = codes::find_hinted(self.hints, list.ids, id) {
            if cells::at(list.flags, row) == 1 {
                return TempEffect::Borrows;
            }
        }
        own
    }

    // What the instruction op with these operands does to the temp buffers.
    #[tactic(auto, unfolding(crate::specs::Callees::temps_by))]
    pub fn temp_of(&self, op: u8, operands: &[u8]) -> TempEffect
        ensures { result ≡ temps_in self.now op operands.now }
    {
        let own = tables::temp_in(self.words, op);
        match tables::move_in(self.words, op) {
            Move::Builtin => self.builtin_temp(flow::builtin_of(operands), own),
            Move::Fixed(_) | Move::Call | Move::Method => own,
        }
    }

    // The first descriptor with that type id counts; a block without one calls nothing.
    fn block_cell(&self, block: FbTypeId) -> u8
        ensures { result ≡ block_by (seat_of self.now.program.program.functions.ids.now) self.now.program.descriptors.callees.now (place_of self.now.program.descriptors.types.now block.0) }
    {
        let blocks = &self.program.descriptors;
        let Some(row) = program::first_row(blocks.types, block.0) else {
            return 0;
        };
        cell_of(
            self.program.program.functions.ids,
            FunctionId(cells::at(blocks.callees, row)),
        )
    }

    // The cell of the function that the instruction op with these operands opens, or 0.
    #[tactic(auto, unfolding(crate::specs::Callees::opens_by))]
    pub fn opened_by(&self, op: u8, operands: &[u8]) -> u8
        ensures { result ≡ opens_in self.now op operands.now }
    {
        let ids = self.program.program.functions.ids;
        match tables::move_in(self.words, op) {
            Move::Fixed(_) if op == tables::FB_CALL => self.block_cell(flow::fb_type_of(operands)),
            Move::Fixed(_) | Move::Builtin => 0,
            Move::Call | Move::Method => cell_of(ids, flow::callee_of(operands)),
        }
    }
}
