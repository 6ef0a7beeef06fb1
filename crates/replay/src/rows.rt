// tables.bin: the size, stack effect and temp effect of each byte, six bytes a row.
use crate::tally;
use crate::tally::Tally;
use tables::{Effect, Move};

// The effect as its row has it: kind, takes, leaves. The kind is the file's byte.
fn recorded_move(kind: u8, takes: u8, leaves: u8) -> Option<Move> {
    match kind {
        1 => Some(Move::Fixed(Effect::new(takes as u16, leaves as u16))),
        2 => Some(Move::Builtin),
        3 => Some(Move::Call),
        4 => Some(Move::Method),
        _ => None,
    }
}

// By hand: the file's row is six bytes, and no value of any type.
fn same_row(sizes: &[u8; 256], words: &[u16; 256], data: &[u8], op: u8) -> bool {
    let row = op as usize * 6;
    let size = tally::byte(data, row, 0);
    let kind = tally::byte(data, row, 1);
    if tables::size_in(sizes, op) != size {
        return false;
    }
    if size == 0 {
        return kind == 0;
    }
    let recorded = recorded_move(kind, tally::byte(data, row, 2), tally::byte(data, row, 3));
    Some(tables::move_in(words, op)) == recorded
        && tables::temp_in(words, op) as u8 == tally::byte(data, row, 4)
}

pub fn replay(data: &[u8]) -> Tally {
    let sizes = tables::sizes();
    let words = tables::words();
    let mut tally = Tally::default();
    for op in 0..=255u8 {
        tally.count(same_row(&sizes, &words, data, op));
    }
    tally
}
