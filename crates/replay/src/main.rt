// Replays document 000's recorded answers (data/README.md) over the leaves, without Rust: a line for each file, with the number of its
// entries and of the differences found.
#![tactic(auto)]

mod bodies;
mod lists;
mod pools;
mod programs;
mod rows;
mod tally;

ghost use Rattle.std.specs.Prelude.{◌≤◌, length, IfOk};

use std::io::Read;
use std::rt::Files;
use std::{fs, io};
use tally::Tally;

// How many bytes of the file it put at the front of the buffer; a file that does not open is named on standard error, and counts as empty.
fn load(rt: &(impl Files + Eprint), path: &str, buffer: &mut [u8]) -> io::Result<usize>
    ensures { IfOk result (λ n. n ≤ length buffer.new) }
{
    match fs::open(rt, path) {
        Ok(file) => {
            let mut file = file;
            Ok(input::read_full(&mut file, buffer))
        }
        Err(e) => {
            eprintln!(rt; "{path}: {e}")?;
            Ok(0)
        }
    }
}

fn report(rt: &impl Print, name: &str, t: Tally) -> io::Result<()> {
    println!(rt;
        "{name}: {} entries, {} differences",
        t.entries, t.differences
    )
}

fn main(rt: HostRuntime) -> io::Result<()> {
    let mut buffer = [0u8; 262144];
    let n = load(&rt, "tables.bin", &mut buffer)?;
    report(&rt, "tables.bin", rows::replay(tally::part(&buffer, 0, n)))?;
    let n = load(&rt, "code-list.bin", &mut buffer)?;
    let columns = lists::Columns::read(tally::part(&buffer, 0, n));
    report(&rt, "code-list.bin", lists::replay(&columns))?;
    let list = columns.list();
    let n = load(&rt, "bodies.bin", &mut buffer)?;
    report(
        &rt,
        "bodies.bin",
        bodies::replay(tally::part(&buffer, 0, n)),
    )?;
    let n = load(&rt, "targets.bin", &mut buffer)?;
    let targets = bodies::replay_targets(tally::part(&buffer, 0, n));
    report(&rt, "targets.bin", targets)?;
    let n = load(&rt, "programs.bin", &mut buffer)?;
    let programs = programs::replay(&list, tally::part(&buffer, 0, n));
    report(&rt, "programs.bin", programs)?;
    let n = load(&rt, "pools.bin", &mut buffer)?;
    let pools = pools::replay(&list, tally::part(&buffer, 0, n));
    report(&rt, "pools.bin", pools)
}
