// Numbers of a bench file (01, "Bench file"): groups of seven bits, low group first, the top bit set on all but the last, in the
// shortest form, at most 65,535.
#![tactic(auto)]

ghost use Rattle.std.specs.Prelude.{◌≡◌, ◌+◌, ◌<◌, ◌≤◌, length};
ghost use Rattle.seven.specs.Seven.{number_at};
ghost use Rattle.seven.specs.Write.{written};

// A number that stands in a file, and the place after it.
#[derive(Clone, Copy, PartialEq, Eq, Debug)]
pub struct Number {
    pub n: u16,
    pub next: usize,
}

// Why no number stands there.
#[derive(Clone, Copy, PartialEq, Eq, Debug)]
pub enum Misread {
    // Not the shortest form, or above 65,535.
    Bad,
    // The file ends inside it.
    Early,
}

// A number where three bytes are there, the longest form: it needs no more tests of the length. (One function for every place: 81
// microseconds in the place of 58 for 65,536 bytes of numbers of three bytes.)
#[tactic(auto, using(std::proofs::lemmas::Bool::Decides::nat_tests), unfolding(crate::specs::Seven::number_at, crate::specs::Seven::first, crate::specs::Seven::second, crate::specs::Seven::third))]
fn read_inside(file: &[u8], at: usize) -> Result<Number, Misread>
    requires { at + 2 < length file.now }
    ensures { result ≡ number_at file.now at }
{
    let low = file[at];
    if low < 128 {
        return Ok(Number {
            n: u16::from(low),
            next: at + 1,
        });
    }
    let middle = file[at + 1];
    if middle < 128 {
        if middle == 0 {
            return Err(Misread::Bad);
        }
        return Ok(Number {
            n: u16::from(low) - 128 + u16::from(middle) * 128,
            next: at + 2,
        });
    }
    let high = file[at + 2];
    if high == 0 || high > 3 {
        return Err(Misread::Bad);
    }
    Ok(Number {
        n: u16::from(low) - 128 + (u16::from(middle) - 128) * 128 + u16::from(high) * 16384,
        next: at + 3,
    })
}

// A number where two bytes are left at most.
#[tactic(auto, using(std::proofs::lemmas::Bool::Decides::nat_tests), unfolding(crate::specs::Seven::number_at, crate::specs::Seven::first, crate::specs::Seven::second, crate::specs::Seven::third))]
fn read_near_end(file: &[u8], at: usize) -> Result<Number, Misread>
    requires { length file.now ≤ at + 2 }
    ensures { result ≡ number_at file.now at }
{
    match file.get(at..).unwrap_or(&[]) {
        [low @ 0..=127, ..] => Ok(Number {
            n: u16::from(*low),
            next: at + 1,
        }),
        [_, 0, ..] => Err(Misread::Bad),
        [low, middle @ 1..=127, ..] => Ok(Number {
            n: u16::from(*low) - 128 + u16::from(*middle) * 128,
            next: at + 2,
        }),
        _ => Err(Misread::Early),
    }
}

// The number that stands at a place of the file.
pub fn read_number(file: &[u8], at: usize) -> Result<Number, Misread>
    ensures { result ≡ number_at file.now at }
{
    if at < file.len().saturating_sub(2) {
        return read_inside(file, at);
    }
    read_near_end(file, at)
}

// Writes a number at a place of the buffer, in the form that read_number takes: the place after it, or None where it does not fit, and then
// nothing is written.
pub fn write_number(n: u16, out: &mut [u8], at: usize) -> Option<usize>
    ensures { (result, out.new) ≡ written out.old at n }
{
    if out.len() <= at {
        return None;
    }
    if n < 128 {
        out[at] = n as u8;
        return Some(at + 1);
    }
    if out.len() - at <= 1 {
        return None;
    }
    if n < 16384 {
        out[at] = (n % 128 + 128) as u8;
        out[at + 1] = (n / 128) as u8;
        return Some(at + 2);
    }
    if out.len() - at <= 2 {
        return None;
    }
    out[at] = (n % 128 + 128) as u8;
    out[at + 1] = (n / 128 % 128 + 128) as u8;
    out[at + 2] = (n / 16384) as u8;
    Some(at + 3)
}
