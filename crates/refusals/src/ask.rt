// Asks both calls of a program and prints a line: its name, and the number and the place of each answer.
use codes::CodeList;
use program::{Descriptors, Functions, PoolProgram, Program, Room};
use std::io;

// The lengths of all columns, of scratch and of the callee cells.
#[derive(Clone, Copy)]
pub struct Sizes {
    pub functions: usize,
    pub parameters: usize,
    pub maxima: usize,
    pub offsets: usize,
    pub lengths: usize,
    pub list: usize,
    pub counts: usize,
    pub flags: usize,
    pub code: usize,
    pub types: usize,
    pub callees: usize,
    pub entries: usize,
    pub room: Room,
    pub cells: usize,
}

// What differs from a program that is taken.
#[derive(Clone, Copy)]
pub enum Change {
    ListId {
        row: usize,
        id: u16,
    },
    Flag {
        row: usize,
        flag: u16,
    },
    Id {
        row: usize,
        id: u16,
    },
    Body {
        row: usize,
        offset: usize,
        length: usize,
    },
    Pool(u16),
}

fn rising() -> [u16; 6145] {
    let mut ids = [0u16; 6145];
    for (i, id) in ids.iter_mut().enumerate() {
        *id = i as u16;
    }
    ids
}

// Asks both calls.
fn ask(
    rt: &impl Print,
    name: &str,
    program: &PoolProgram<'_>,
    room: Room,
    cells: usize,
) -> io::Result<()> {
    let stack = program::stack_input(&program.program, room);
    let pool = program::pool_input(program, room, cells);
    println!(rt;
        "{name}: stack {} {}, pool {} {}",
        program::number(stack),
        program::place(stack),
        program::number(pool),
        program::place(pool)
    )
}

// A program of those lengths: ids rise, flags are 0, every body is empty.
pub fn ask_sizes(rt: &impl Print, name: &str, n: Sizes) -> io::Result<()> {
    let rising = rising();
    let zeros = [0u16; 6145];
    let sizes = [0usize; 160];
    let code = [0u8; 12289];
    let functions = Functions {
        ids: cells::part(&rising, 0, n.functions),
        parameters: cells::part(&zeros, 0, n.parameters),
        maxima: cells::part(&zeros, 0, n.maxima),
        offsets: cells::part(&sizes, 0, n.offsets),
        lengths: cells::part(&sizes, 0, n.lengths),
    };
    let list = CodeList {
        ids: cells::part(&rising, 0, n.list),
        counts: cells::part(&zeros, 0, n.counts),
        flags: cells::part(&zeros, 0, n.flags),
    };
    let descriptors = Descriptors {
        types: cells::part(&zeros, 0, n.types),
        callees: cells::part(&zeros, 0, n.callees),
    };
    let program = Program {
        functions,
        list,
        code: cells::part(&code, 0, n.code),
    };
    let whole = PoolProgram {
        program,
        descriptors,
        entries: cells::part(&zeros, 0, n.entries),
        pool: 0,
    };
    ask(rt, name, &whole, n.room, n.cells)
}

// 128 functions, 6,144 rows and 100 code bytes, with those changes.
pub fn ask_change(rt: &impl Print, name: &str, changes: &[Change]) -> io::Result<()> {
    let mut ids = rising();
    let mut list_ids = rising();
    let mut flags = [0u16; 6144];
    let mut offsets = [0usize; 128];
    let mut lengths = [0usize; 128];
    let mut pool = 65534;
    for change in changes {
        match *change {
            Change::ListId { row, id } => cells::put(&mut list_ids, row, id),
            Change::Flag { row, flag } => cells::put(&mut flags, row, flag),
            Change::Id { row, id } => cells::put(&mut ids, row, id),
            Change::Body {
                row,
                offset,
                length,
            } => {
                cells::put(&mut offsets, row, offset);
                cells::put(&mut lengths, row, length);
            }
            Change::Pool(declared) => pool = declared,
        }
    }
    let zeros = [0u16; 6144];
    let functions = Functions {
        ids: cells::part(&ids, 0, 128),
        parameters: cells::part(&zeros, 0, 128),
        maxima: cells::part(&zeros, 0, 128),
        offsets: &offsets,
        lengths: &lengths,
    };
    let list = CodeList {
        ids: cells::part(&list_ids, 0, 6144),
        counts: &zeros,
        flags: &flags,
    };
    let descriptors = Descriptors {
        types: cells::part(&zeros, 0, 256),
        callees: cells::part(&zeros, 0, 256),
    };
    let program = Program {
        functions,
        list,
        code: &[0; 100],
    };
    let whole = PoolProgram {
        program,
        descriptors,
        entries: cells::part(&zeros, 0, 32),
        pool,
    };
    ask(rt, name, &whole, room_for(100), 16384)
}

pub fn room_for(code: usize) -> Room {
    let n = code.min(12289);
    Room {
        marks: n,
        depths: n + 1,
        queue: 2 * n + 2,
        queue_depths: 2 * n + 2,
    }
}
