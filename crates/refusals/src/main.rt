// The refusals 30 to 35, asked of both calls at their limits.
#![tactic(auto)]

mod ask;

use ask::{Change, Sizes, ask_change, ask_sizes, room_for};
use program::Room;
use std::io;

// Every table at its limit, with the room that 01 asks for.
fn at_limits() -> Sizes {
    Sizes {
        functions: 128,
        parameters: 128,
        maxima: 128,
        offsets: 128,
        lengths: 128,
        list: 6144,
        counts: 6144,
        flags: 6144,
        code: 12288,
        types: 256,
        callees: 256,
        entries: 32,
        room: room_for(12288),
        cells: 16384,
    }
}

fn empty() -> Sizes {
    Sizes {
        functions: 0,
        parameters: 0,
        maxima: 0,
        offsets: 0,
        lengths: 0,
        list: 0,
        counts: 0,
        flags: 0,
        code: 0,
        types: 0,
        callees: 0,
        entries: 0,
        room: room_for(0),
        cells: 16384,
    }
}

fn table_of(functions: usize) -> Sizes {
    Sizes {
        functions,
        parameters: functions,
        maxima: functions,
        offsets: functions,
        lengths: functions,
        ..at_limits()
    }
}

fn list_of(rows: usize) -> Sizes {
    Sizes {
        list: rows,
        counts: rows,
        flags: rows,
        ..at_limits()
    }
}

fn code_of(bytes: usize) -> Sizes {
    Sizes {
        code: bytes,
        room: room_for(bytes),
        ..at_limits()
    }
}

// 31: counts at their limits and one past them.
fn ask_counts(rt: &impl Print) -> io::Result<()> {
    ask_sizes(rt, "nothing at all", empty())?;
    ask_sizes(rt, "every limit", at_limits())?;
    ask_sizes(rt, "129 functions", table_of(129))?;
    ask_sizes(rt, "127 functions", table_of(127))?;
    ask_sizes(rt, "6,145 rows", list_of(6145))?;
    ask_sizes(rt, "6,143 rows", list_of(6143))?;
    ask_sizes(rt, "12,289 code bytes", code_of(12289))?;
    ask_sizes(rt, "12,287 code bytes", code_of(12287))?;
    let n = Sizes {
        types: 257,
        callees: 257,
        ..at_limits()
    };
    ask_sizes(rt, "257 descriptors", n)?;
    let n = Sizes {
        entries: 33,
        ..at_limits()
    };
    ask_sizes(rt, "33 entries", n)
}

// 31: one column of a table a row longer or shorter.
fn ask_columns(rt: &impl Print) -> io::Result<()> {
    let n = Sizes {
        parameters: 127,
        ..at_limits()
    };
    ask_sizes(rt, "parameters short", n)?;
    let n = Sizes {
        maxima: 129,
        ..at_limits()
    };
    ask_sizes(rt, "maxima long", n)?;
    let n = Sizes {
        offsets: 127,
        ..at_limits()
    };
    ask_sizes(rt, "offsets short", n)?;
    let n = Sizes {
        lengths: 129,
        ..at_limits()
    };
    ask_sizes(rt, "lengths long", n)?;
    let n = Sizes {
        counts: 6143,
        ..at_limits()
    };
    ask_sizes(rt, "counts short", n)?;
    let n = Sizes {
        flags: 6143,
        ..at_limits()
    };
    ask_sizes(rt, "flags short", n)?;
    let n = Sizes {
        callees: 255,
        ..at_limits()
    };
    ask_sizes(rt, "callees short", n)
}

fn room_of(marks: usize, depths: usize, queue: usize, queue_depths: usize) -> Sizes {
    let room = Room {
        marks,
        depths,
        queue,
        queue_depths,
    };
    Sizes {
        room,
        ..at_limits()
    }
}

// 30: room that is one cell short, and room to spare.
fn ask_room(rt: &impl Print) -> io::Result<()> {
    ask_sizes(rt, "marks short", room_of(12287, 12289, 24578, 24578))?;
    ask_sizes(rt, "depths short", room_of(12288, 12288, 24578, 24578))?;
    ask_sizes(rt, "queue short", room_of(12288, 12289, 24577, 24578))?;
    ask_sizes(
        rt,
        "queue depths short",
        room_of(12288, 12289, 24578, 24577),
    )
}

fn ask_more_room(rt: &impl Print) -> io::Result<()> {
    let n = Sizes {
        cells: 16383,
        ..at_limits()
    };
    ask_sizes(rt, "cells short", n)?;
    let n = Sizes {
        room: room_for(12288),
        cells: 20000,
        ..code_of(12287)
    };
    ask_sizes(rt, "room to spare", n)?;
    let n = Sizes {
        room: room_for(0),
        ..table_of(129)
    };
    ask_sizes(rt, "31 before 30", n)?;
    let n = Sizes {
        room: room_for(0),
        entries: 33,
        ..at_limits()
    };
    ask_sizes(rt, "33 entries and no room", n)
}

// 34: ids that do not rise, and flags above 1.
fn ask_list(rt: &impl Print) -> io::Result<()> {
    ask_change(
        rt,
        "row 1 equal to row 0",
        &[Change::ListId { row: 1, id: 0 }],
    )?;
    ask_change(rt, "row 0 above row 1", &[Change::ListId { row: 0, id: 1 }])?;
    ask_change(
        rt,
        "last row equal",
        &[Change::ListId {
            row: 6143,
            id: 6142,
        }],
    )?;
    ask_change(
        rt,
        "last row higher",
        &[Change::ListId {
            row: 6143,
            id: 65535,
        }],
    )?;
    ask_change(rt, "flag 1 in row 0", &[Change::Flag { row: 0, flag: 1 }])?;
    ask_change(rt, "flag 2 in row 0", &[Change::Flag { row: 0, flag: 2 }])?;
    ask_change(
        rt,
        "flag 256 in the last row",
        &[Change::Flag {
            row: 6143,
            flag: 256,
        }],
    )
}

// 32: the later row of the pair.
fn ask_ids(rt: &impl Print) -> io::Result<()> {
    ask_change(rt, "row 1 as row 0", &[Change::Id { row: 1, id: 0 }])?;
    ask_change(rt, "last row as row 0", &[Change::Id { row: 127, id: 0 }])?;
    ask_change(
        rt,
        "row 0 as the last row",
        &[Change::Id { row: 0, id: 127 }],
    )?;
    ask_change(rt, "row 60 as row 59", &[Change::Id { row: 60, id: 59 }])?;
    ask_change(rt, "an id of 65535", &[Change::Id { row: 5, id: 65535 }])?;
    ask_change(
        rt,
        "an id whose bit is next to another",
        &[Change::Id { row: 0, id: 129 }],
    )
}

// 33: bodies at the end of 100 code bytes.
fn ask_bodies(rt: &impl Print) -> io::Result<()> {
    ask_change(
        rt,
        "the whole code",
        &[Change::Body {
            row: 0,
            offset: 0,
            length: 100,
        }],
    )?;
    ask_change(
        rt,
        "one byte too long",
        &[Change::Body {
            row: 0,
            offset: 0,
            length: 101,
        }],
    )?;
    ask_change(
        rt,
        "offset 100, length 0",
        &[Change::Body {
            row: 127,
            offset: 100,
            length: 0,
        }],
    )?;
    ask_change(
        rt,
        "offset 100, length 1",
        &[Change::Body {
            row: 127,
            offset: 100,
            length: 1,
        }],
    )?;
    ask_change(
        rt,
        "offset 101, length 0",
        &[Change::Body {
            row: 127,
            offset: 101,
            length: 0,
        }],
    )?;
    ask_change(
        rt,
        "a sum that wraps to 50",
        &[Change::Body {
            row: 64,
            offset: 100,
            length: 18446744073709551566,
        }],
    )
}

// 35, and one refusal before another.
fn ask_order(rt: &impl Print) -> io::Result<()> {
    let outside = Change::Body {
        row: 3,
        offset: 101,
        length: 0,
    };
    let repeated = Change::Id { row: 9, id: 8 };
    ask_change(rt, "pool 65535", &[Change::Pool(65535)])?;
    ask_change(rt, "33 before 35", &[outside, Change::Pool(65535)])?;
    ask_change(rt, "32 before 33", &[outside, repeated])?;
    ask_change(
        rt,
        "34 before 32",
        &[repeated, Change::Flag { row: 17, flag: 2 }],
    )?;
    ask_change(
        rt,
        "34 at the lower row",
        &[
            Change::ListId { row: 20, id: 3 },
            Change::Flag { row: 10, flag: 2 },
        ],
    )
}

fn main(rt: HostRuntime) -> io::Result<()> {
    ask_counts(&rt)?;
    ask_columns(&rt)?;
    ask_room(&rt)?;
    ask_more_room(&rt)?;
    ask_list(&rt)?;
    ask_ids(&rt)?;
    ask_bodies(&rt)?;
    ask_order(&rt)
}
