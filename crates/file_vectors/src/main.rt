// Reads bench files from standard input, each written as runs of bytes (how often, low byte first, how many, and as many bytes), and prints
// for each what reading it finds and a sum over all cells of the columns afterwards. An empty run ends a file; if it stands k times, the
// k-th column is lent a cell short. A run that stands no times is a case for the writer.
#![tactic(auto)]

mod draft;
mod written;

ghost use Rattle.std.specs.Prelude.{◌≡◌, ◌≤◌, OnErr};
ghost use Rattle.std.specs.Iterator.{IsFinite};

use draft::{Draft, Run};
use file::{Columns, Refused, Sizes};
use std::io;

fn mixed(sum: u64, value: u64) -> u64 {
    (sum % 1000000007 * 31 + value % 65536) % 1000000007
}

// A sum that goes on over the cells of one more column.
pub(crate) fn summed<I: Iterator<Item = u64> + Drop>(sum: u64, column: I) -> u64
    requires can { I.can_next column }
    requires ends { IsFinite (I.remaining column) }
{
    let mut h = sum;
    for value in column {
        h = mixed(h, value);
    }
    h
}

fn show_outcome(rt: &impl Print, outcome: Result<Sizes, Refused>) -> io::Result<()> {
    match outcome {
        Ok(s) => print!(rt;
            "READ {} {} {} {} {} {}",
            s.pool, s.rows, s.functions, s.descriptors, s.entries, s.code
        ),
        Err(refused) => print!(rt; "{refused}"),
    }
}

fn show_sum(rt: &impl Print, c: &Columns<'_>) -> io::Result<()> {
    let h = summed(0, c.list_ids.iter().map(|n| u64::from(*n)));
    let h = summed(h, c.list_counts.iter().map(|n| u64::from(*n)));
    let h = summed(h, c.list_flags.iter().map(|n| u64::from(*n)));
    let h = summed(h, c.function_ids.iter().map(|n| u64::from(*n)));
    let h = summed(h, c.parameters.iter().map(|n| u64::from(*n)));
    let h = summed(h, c.maxima.iter().map(|n| u64::from(*n)));
    let h = summed(h, c.offsets.iter().map(|n| *n as u64));
    let h = summed(h, c.lengths.iter().map(|n| *n as u64));
    let h = summed(h, c.type_ids.iter().map(|n| u64::from(*n)));
    let h = summed(h, c.descriptor_functions.iter().map(|n| u64::from(*n)));
    let h = summed(h, c.entries.iter().map(|n| u64::from(*n)));
    let h = summed(h, c.code.iter().map(|n| u64::from(*n)));
    println!(rt; " {h}")
}

// Of a column's cells all but one, where it is the short one.
fn cells_of(limit: usize, column: usize, short: usize) -> usize
    ensures { result ≤ limit }
{
    if column == short {
        limit.saturating_sub(1)
    } else {
        limit
    }
}

// Every column starts with sevens, so that a spare cell that changed shows in the sum. One column may be a cell short.
fn show(rt: &impl Print, file: &[u8], short: usize) -> io::Result<()> {
    let mut list_ids = [7u16; 6144];
    let mut list_counts = [7u16; 6144];
    let mut list_flags = [7u16; 6144];
    let mut function_ids = [7u16; 128];
    let mut parameters = [7u16; 128];
    let mut maxima = [7u16; 128];
    let mut offsets = [7usize; 128];
    let mut lengths = [7usize; 128];
    let mut type_ids = [7u16; 256];
    let mut descriptor_functions = [7u16; 256];
    let mut entries = [7u16; 32];
    let mut code = [7u8; 12288];
    let mut columns = Columns {
        list_ids: &mut list_ids[..cells_of(6144, 1, short)],
        list_counts: &mut list_counts[..cells_of(6144, 2, short)],
        list_flags: &mut list_flags[..cells_of(6144, 3, short)],
        function_ids: &mut function_ids[..cells_of(128, 4, short)],
        parameters: &mut parameters[..cells_of(128, 5, short)],
        maxima: &mut maxima[..cells_of(128, 6, short)],
        offsets: &mut offsets[..cells_of(128, 7, short)],
        lengths: &mut lengths[..cells_of(128, 8, short)],
        type_ids: &mut type_ids[..cells_of(256, 9, short)],
        descriptor_functions: &mut descriptor_functions[..cells_of(256, 10, short)],
        entries: &mut entries[..cells_of(32, 11, short)],
        code: &mut code[..cells_of(12288, 12, short)],
    };
    show_outcome(rt, file::read_file(&mut columns, file))?;
    show_sum(rt, &columns)
}

// An empty run shows the file and ends it, one that stands no times is a case for the writer, and any other goes to the end of the file.
fn after_run(rt: &impl Print, draft: &mut Draft, run: &Run<'_>) -> io::Result<()>
    ensures err { OnErr result (draft.new ≡ draft.old) }
{
    if run.count == 0 {
        show(rt, draft.file(), run.times)?;
        draft.start_over();
        return Ok(());
    }
    if run.times == 0 {
        return written::show_case(rt, run.bytes);
    }
    draft.append(run);
    Ok(())
}

fn run(rt: &impl Print, script: &[u8]) -> io::Result<()> {
    let mut draft = Draft::blank();
    let mut rest = script;
    while !rest.is_empty() {
        let run = Run {
            times: usize::from(u16::from_le_bytes([cells::at(rest, 0), cells::at(rest, 1)])),
            count: usize::from(cells::at(rest, 2)),
            bytes: cells::part(rest, 3, rest.len()),
        };
        after_run(rt, &mut draft, &run)?;
        rest = cells::part(run.bytes, run.count, run.bytes.len());
    }
    Ok(())
}

fn main(rt: HostRuntime) -> io::Result<()> {
    let mut script = [0u8; 65536];
    let n = input::read_full(&mut rt.stdin(), &mut script);
    run(&rt, &script[..n])
}
