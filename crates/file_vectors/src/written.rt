// Cases for the writer. All columns of words are fronts of one array, as are those of offsets, lengths and code, so that they can differ in
// length and be too long. A case is 22 numbers of two bytes, low byte first: pool; first word and step; the twelve lengths; row and value
// of one offset and one length, each in two numbers; and how many bytes are lent, in two numbers.
ghost use Rattle.std.specs.Prelude.{◌<◌};

use crate::summed;
use file_writer::{Tables, Unwritten};
use std::io;

fn number(case: &[u8], index: usize) -> u16 {
    let at = index % 64 * 2;
    u16::from_le_bytes([cells::at(case, at), cells::at(case, at + 1)])
}

fn size(case: &[u8], index: usize) -> usize
    ensures { result < 65536 }
{
    usize::from(number(case, index))
}

// In two numbers, the low one first.
fn long(case: &[u8], index: usize) -> usize {
    size(case, index) + 65536 * size(case, index % 64 + 1)
}

// Words that rise by a step, from 65,535 on again from 0.
fn fill(words: &mut [u16; 6145], first: u16, step: u16) {
    let mut next = first;
    for word in words.iter_mut() {
        *word = next;
        next = next.wrapping_add(step);
    }
}

fn show_wrote(rt: &impl Print, wrote: Result<usize, Unwritten>) -> io::Result<()> {
    match wrote {
        Ok(size) => print!(rt; "WROTE {size}"),
        Err(Unwritten::Refused { number }) => print!(rt; "REFUSED {number}"),
        Err(Unwritten::NoRoom) => print!(rt; "NO ROOM"),
    }
}

// The buffer is full of sevens, and its sum is over all of it, so that a byte that should have stayed shows.
pub fn show_case(rt: &impl Print, case: &[u8]) -> io::Result<()> {
    let mut words = [0u16; 6145];
    let mut offsets = [1usize; 129];
    let mut lengths = [2usize; 129];
    let code = [9u8; 12289];
    let mut out = [7u8; 70000];
    fill(&mut words, number(case, 1), number(case, 2));
    let row = size(case, 15);
    cells::put(&mut offsets, row, long(case, 16));
    cells::put(&mut lengths, row, long(case, 18));
    let tables = Tables {
        list_ids: cells::part(&words, 0, size(case, 3)),
        list_counts: cells::part(&words, 0, size(case, 4)),
        list_flags: cells::part(&words, 0, size(case, 5)),
        function_ids: cells::part(&words, 0, size(case, 6)),
        parameters: cells::part(&words, 0, size(case, 7)),
        maxima: cells::part(&words, 0, size(case, 8)),
        offsets: cells::part(&offsets, 0, size(case, 9)),
        lengths: cells::part(&lengths, 0, size(case, 10)),
        type_ids: cells::part(&words, 0, size(case, 11)),
        descriptor_functions: cells::part(&words, 0, size(case, 12)),
        entries: cells::part(&words, 0, size(case, 13)),
        code: cells::part(&code, 0, size(case, 14)),
    };
    if let Some(lent) = out.get_mut(..long(case, 20)) {
        show_wrote(rt, file_writer::write_file(lent, number(case, 0), &tables))?;
    }
    println!(rt; " {}", summed(0, out.iter().map(|n| u64::from(*n))))
}
