// The file that the runs of the script make up.
ghost use Rattle.std.specs.Prelude.{◌≤◌, length};

// A run of the script: the first `count` of the bytes that follow its head, zeros past the script's end, and how often they stand.
#[derive(Clone, Copy)]
pub struct Run<'a> {
    pub times: usize,
    pub count: usize,
    pub bytes: &'a [u8],
}

// The file so far: the first `size` bytes of a buffer. No Vec: nothing here takes memory from the heap.
#[derive(Drop)]
pub struct Draft {
    buffer: [u8; 70000],
    size: usize,
    ghost fits: { size ≤ length buffer },
}

impl Draft {
    pub fn blank() -> Draft {
        Draft {
            buffer: [0; 70000],
            size: 0,
        }
    }

    pub fn file(&self) -> &[u8] {
        &self.buffer[..self.size]
    }

    pub fn start_over(&mut self) {
        self.size = 0;
    }

    // What does not fit is left out.
    fn push(&mut self, byte: u8) {
        if self.size < self.buffer.len() {
            self.buffer[self.size] = byte;
            self.size += 1;
        }
    }

    fn append_once(&mut self, run: &Run<'_>) {
        for i in 0..run.count {
            self.push(cells::at(run.bytes, i));
        }
    }

    pub fn append(&mut self, run: &Run<'_>) {
        for _ in 0..run.times {
            self.append_once(run);
        }
    }
}
