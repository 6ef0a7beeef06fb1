// programs.bin: whole programs and the stack check's answer, over the exported code list.
use crate::tally;
use crate::tally::Tally;
use answers::Fields;
use codes::CodeList;
use program::{Functions, Program, Scratch};

// A program's functions, in columns.
#[derive(Clone, Copy)]
pub struct Directory {
    pub ids: [u16; 16],
    pub parameters: [u16; 16],
    pub maxima: [u16; 16],
    pub offsets: [usize; 16],
    pub lengths: [usize; 16],
}

impl Directory {
    // Ten bytes a row.
    pub fn read(data: &[u8], at: usize) -> Directory {
        let mut directory = Directory {
            ids: [0; 16],
            parameters: [0; 16],
            maxima: [0; 16],
            offsets: [0; 16],
            lengths: [0; 16],
        };
        for row in 0..16usize {
            let from = at.wrapping_add(row * 10);
            directory.ids[row] = tally::word(data, from);
            directory.parameters[row] = tally::word(data, from.wrapping_add(2));
            directory.maxima[row] = tally::word(data, from.wrapping_add(4));
            directory.offsets[row] = tally::word(data, from.wrapping_add(6)) as usize;
            directory.lengths[row] = tally::word(data, from.wrapping_add(8)) as usize;
        }
        directory
    }

    // The first n of them.
    pub fn functions(&self, n: usize) -> Functions<'_> {
        Functions {
            ids: cells::part(&self.ids, 0, n),
            parameters: cells::part(&self.parameters, 0, n),
            maxima: cells::part(&self.maxima, 0, n),
            offsets: cells::part(&self.offsets, 0, n),
            lengths: cells::part(&self.lengths, 0, n),
        }
    }
}

// The six fields that stand in a file from a place on.
pub fn recorded_fields(data: &[u8], at: usize) -> Fields {
    Fields {
        number: tally::double_word(data, at),
        function: tally::double_word(data, at.wrapping_add(4)),
        offset: tally::double_word(data, at.wrapping_add(8)),
        a: tally::double_word(data, at.wrapping_add(12)),
        b: tally::double_word(data, at.wrapping_add(16)),
        c: tally::double_word(data, at.wrapping_add(20)),
    }
}

// The answer to one program.
fn asked(program: &Program<'_>) -> Fields {
    let mut marks = [0u8; 256];
    let mut depths = [0u32; 257];
    let mut queue = [0u16; 514];
    let mut queue_depths = [0u16; 514];
    let mut scratch = Scratch {
        marks: &mut marks,
        depths: &mut depths,
        queue: &mut queue,
        queue_depths: &mut queue_depths,
    };
    stack::fields(stack::stack_check(&mut scratch, program))
}

// One entry: how long it is, and whether it is the same.
fn entry<'a>(list: &CodeList<'a>, data: &'a [u8], at: usize) -> (usize, bool) {
    let n = cells::at(data, at) as usize;
    let rows = at.wrapping_add(1);
    let after = rows.wrapping_add(n * 10);
    let size = tally::word(data, after) as usize;
    let from = after.wrapping_add(2);
    let directory = Directory::read(data, rows);
    let program = Program {
        functions: directory.functions(n),
        list: *list,
        code: tally::part(data, from, size),
    };
    let recorded = recorded_fields(data, from.wrapping_add(size));
    (n * 10 + size + 27, asked(&program) == recorded)
}

pub fn replay<'a>(list: &CodeList<'a>, data: &'a [u8]) -> Tally {
    tally::each(data, |at| entry(list, data, at))
}
