// code-list.bin: the exported code list. Every one of the 65,536 ids is looked up in it.
use crate::tally;
use crate::tally::Tally;
use codes::{CodeList, Listed};

fn column(data: &[u8], offset: usize) -> [u16; 1024] {
    let mut cells = [0u16; 1024];
    for row in 0..1024usize {
        cells[row] = tally::word(data, row * 6 + offset % 6);
    }
    cells
}

// The list in columns, and how many rows it has.
#[derive(Clone, Copy)]
pub struct Columns {
    pub ids: [u16; 1024],
    pub counts: [u16; 1024],
    pub flags: [u16; 1024],
    pub rows: usize,
}

impl Columns {
    pub fn read(data: &[u8]) -> Columns {
        Columns {
            ids: column(data, 0),
            counts: column(data, 2),
            flags: column(data, 4),
            rows: data.len() / 6,
        }
    }

    pub fn list(&self) -> CodeList<'_> {
        CodeList {
            ids: cells::part(&self.ids, 0, self.rows),
            counts: cells::part(&self.counts, 0, self.rows),
            flags: cells::part(&self.flags, 0, self.rows),
        }
    }
}

// The answer to an id is the row's where the next row has that id, and else there is none.
pub fn replay(columns: &Columns) -> Tally {
    let list = columns.list();
    let mut tally = Tally::default();
    // By hand: with `next_if` of a peekable iterator the check did not find that it may go on.
    let mut row: usize = 0;
    for id in 0..=65535u16 {
        let mut recorded = None;
        if row < list.ids.len() && cells::at(list.ids, row) == id {
            recorded = Some(Listed {
                count: cells::at(list.counts, row),
                flag: cells::at(list.flags, row),
            });
            row = row.wrapping_add(1);
        }
        tally.count(codes::lookup(&list, id) == recorded);
    }
    tally
}
