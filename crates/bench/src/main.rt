// Reads a bench file from standard input and prints `INPUT number place`, or the lines STACK and POOL, each with number, function, offset, a, b, c
// (01, "Bench file, program and C entry"). More than 65,537 bytes are never read: that many are already too many.
#![tactic(auto)]

use desk::Checked;
use file::Refused;
use std::io;
use std::io::Read;

fn print_answer(rt: &impl Print, answer: Result<Checked, Refused>) -> io::Result<()> {
    match answer {
        Ok(Checked { stack, pool }) => {
            println!(rt; "STACK {stack}")?;
            println!(rt; "POOL {pool}")
        }
        Err(refused) => println!(rt; "{refused}"),
    }
}

// `read_full` stops at the end and at an error alike: only at the end does a further read answer 0.
fn at_end<R: Read>(input: &mut R) -> bool {
    let mut more = [0u8; 1];
    match input.read(&mut more) {
        Ok(n) => n == 0,
        Err(_) => false,
    }
}

fn main(rt: HostRuntime) -> io::Result<()> {
    let mut bytes = [0u8; 65537];
    let n = input::read_full(&mut rt.stdin(), &mut bytes);
    if n < 65537 {
        if !at_end(&mut rt.stdin()) {
            eprintln!(rt; "bench: standard input could not be read")?;
            return Ok(());
        }
    }
    print_answer(&rt, desk::check_file(&bytes[..n]))
}
