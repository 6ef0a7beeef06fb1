// The one entry of the crane's loader, written in C (01, "Bench file, program and C entry"): a bench file's bytes and a buffer for the answer.
#![tactic(auto)]

ghost use Rattle.std.specs.Prelude.{◌≡◌, ◌*◌, ◌≤◌, length};
ghost use Rattle.file.specs.Columns.{over};
ghost use Rattle.coppernudge.specs.Entry.{twelve_of, bytes_of, entry_of};

use desk::Checked;

// The fields of both answers in the order of the buffer.
fn twelve(checked: &Checked) -> [u32; 12]
    ensures { result ≡ twelve_of checked.now.stack checked.now.pool }
{
    let Checked { stack, pool } = *checked;
    [
        stack.number,
        stack.function,
        stack.offset,
        stack.a,
        stack.b,
        stack.c,
        pool.number,
        pool.function,
        pool.offset,
        pool.a,
        pool.b,
        pool.c,
    ]
}

// Every word as four bytes, low byte first, over the front of the buffer.
fn put_words(out: &mut [u8], words: &[u32])
    requires { 4 * length words.now ≤ length out.old }
    ensures { out.new ≡ over (bytes_of words.now) out.old }
{
    for (i, &word) in words.iter().enumerate() {
        let at = 4 * i;
        let [lowest, low, high, highest] = word.to_le_bytes();
        out[at] = lowest;
        out[at + 1] = low;
        out[at + 2] = high;
        out[at + 3] = highest;
    }
}

// Below 48 bytes of answer 30, and nothing is read or written; a refusal's number, and the buffer stays; else 0 and the twelve fields.
#[unsafe(no_mangle)]
#[tactic(auto, using(crate::proofs::EntryLaws::short, crate::proofs::EntryLaws::refused))]
pub extern "C" fn coppernudge_check(file: &[u8], answer: &mut [u8]) -> u32
    ensures { (result, answer.new) ≡ entry_of file.now answer.old }
{
    if answer.len() < 48 {
        return 30;
    }
    match desk::check_file(file) {
        Ok(checked) => {
            put_words(answer, &twelve(&checked));
            0
        }
        Err(refused) => refused.number,
    }
}
