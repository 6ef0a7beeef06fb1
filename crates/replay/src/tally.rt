// How many entries were replayed and how many of them differed; and the part of a file that an entry is.
#[derive(Clone, Copy, Default)]
pub struct Tally {
    pub entries: u64,
    pub differences: u64,
}

impl Tally {
    // One entry more, be it the same or not.
    pub fn count(&mut self, same: bool) {
        self.entries = self.entries.wrapping_add(1);
        if !same {
            self.differences = self.differences.wrapping_add(1);
        }
    }
}

// Counts the entries of a file: `entry` says of the place where one begins how long it is, and whether it is the same. One that has no length, or is
// not all there, differs and ends the file.
pub(crate) fn each<F: Fn(usize) -> (usize, bool)>(data: &[u8], entry: F) -> Tally
    requires { F.IsAlwaysCallable entry }
{
    let mut tally = Tally::default();
    let mut at: usize = 0;
    // No `for`: each turn goes on by an entry's length.
    while at < data.len() {
        let (length, same) = entry(at);
        if length == 0 || data.len() - at < length {
            tally.count(false);
            return tally;
        }
        tally.count(same);
        at += length;
    }
    tally
}

// n bytes from a place on, or none where they are not all there.
pub fn part(data: &[u8], from: usize, n: usize) -> &[u8] {
    let found = cells::part(data, from, n);
    if found.len() == n { found } else { &[] }
}

// The byte that stands i bytes after a place.
pub fn byte(data: &[u8], at: usize, i: usize) -> u8 {
    cells::at(data, at.wrapping_add(i))
}

// Two bytes, low byte first.
pub fn word(data: &[u8], at: usize) -> u16 {
    flow::word_at(data, at)
}

// Four bytes, low byte first.
pub fn double_word(data: &[u8], at: usize) -> u32 {
    u32::from_le_bytes([
        byte(data, at, 0),
        byte(data, at, 1),
        byte(data, at, 2),
        byte(data, at, 3),
    ])
}
