// The lines of standard input, for the programs that answer line by line.
ghost use Rattle.std.specs.Prelude.{◌≡◌, ◌≤◌, IfSome, length};

use arrayvec::ArrayVec;

// A line and the part of the input that is read and not yet taken.
#[derive(Drop)]
pub struct Lines {
    chunk: [u8; 4096],
    // The chunk's bytes from `start` up to `end` are not yet taken.
    start: usize,
    end: usize,
    line: ArrayVec<u8, 4096>,
}

impl Lines {
    // Before the first line.
    pub fn new() -> Lines
        ensures { result.start ≡ result.end }
    {
        Lines {
            chunk: io::buffer(),
            start: 0,
            end: 0,
            line: ArrayVec::new(),
        }
    }

    // The next line, without its end; at the end of the input none, whatever follows the last byte 10. A line of 4096 bytes or more is full.
    pub fn next(&mut self) -> Option<&ArrayVec<u8, 4096>>
        ensures { IfSome result (λ line. length line.now.items ≤ 4096) }
    {
        if self.read_line() {
            return Some(&self.line);
        }
        None
    }

    // Reads up to the next byte 10; false if the input ends before.
    fn read_line(&mut self) -> bool
        ensures { length self.new.line.items ≤ 4096 }
    {
        self.line.clear();
        // Nothing says that a line ends, so the turns are counted up to a number that no line reaches.
        for _ in 0..u64::MAX {
            let Some(byte) = self.next_byte() else {
                return false;
            };
            if byte == b'\n' {
                return true;
            }
            let _ = self.line.try_push(byte);
        }
        false
    }

    // The next byte, unless the input ends; for a program whose lines end otherwise.
    pub fn next_byte(&mut self) -> Option<u8>
        ensures { self.new.line ≡ self.old.line }
    {
        if self.start >= self.end {
            self.start = 0;
            self.end = io::read_full(0, &mut self.chunk);
        }
        if self.start >= self.end {
            return None;
        }
        let byte = *self.chunk.get(self.start)?;
        self.start += 1;
        Some(byte)
    }
}
