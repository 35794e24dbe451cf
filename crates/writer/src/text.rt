// A text on its way: the first `length` of the bytes. The longest text has a year of ten digits.
ghost use Rattle.std.specs.Prelude.{◌≡◌, List, [], ◌∷◌, ◌++◌, ◌+◌, ◌<◌, ◌≤◌, ℕ, length, take};
ghost use Rattle.writer.specs.Writer.{fixed, field};

use answers::LONGEST_TEXT;
use std::marker::Model;

#[derive(Drop)]
pub struct Text {
    bytes: [u8; LONGEST_TEXT],
    length: usize,
}

// Contracts see a text as the list of its bytes.
impl Model for Text {
    ghost Value = { List ℕ };

    ghost view = { λ t. take t.length t.bytes };

    ghost invariant = { λ t. t.length ≤ 41 };
}

impl Text {
    pub(crate) fn new() -> Text
        ensures { result ≡ [] }
    {
        Text {
            bytes: [0; LONGEST_TEXT],
            length: 0,
        }
    }

    pub(crate) fn as_bytes(&self) -> &[u8]
        ensures { result.now ≡ self.now }
    {
        &self.bytes[..self.length]
    }

    // A byte and the last `count` digits of a number after it.
    pub(crate) fn push_field(&mut self, byte: u8, count: usize, number: u32)
        requires { length self.old + count < 41 }
        ensures text { self.new ≡ self.old ++ field byte count number [] }
        ensures len { length self.new ≡ length self.old + count + 1 }
    {
        self.push(byte);
        self.push_digits(count, number);
    }

    fn push(&mut self, byte: u8)
        requires { length self.old < 41 }
        ensures { self.new ≡ self.old ++ byte ∷ [] }
    {
        self.bytes[self.length] = byte;
        self.length += 1;
    }

    // The last `count` digits of a number.
    pub(crate) fn push_digits(&mut self, count: usize, number: u32)
        requires { length self.old + count ≤ 41 }
        ensures text { self.new ≡ self.old ++ fixed count number }
        ensures len { length self.new ≡ length self.old + count }
    {
        let end = self.length + count;
        crate::fill_digits(&mut self.bytes[self.length..end], u64::from(number));
        self.length = end;
    }
}
