// A line that is read byte by byte: the name of a call and its arguments, with one space before each.
//
// What no list of the Rust's has: of a name only the first eight bytes count. Between two spaces stands 0. A minus may stand anywhere in a
// number. An argument that a line leaves out is that of the lines before; one that no line has given yet is the least i64, which is 0 in the
// other types. A number that can't be read, or a 13th argument, takes the name away, and the next word is argument 1 again.
use crate::calls;
use crate::replies::Reply;
use arrayvec::ArrayVec;

const MOST_ARGUMENTS: usize = 12;

#[derive(Drop)]
pub struct Line {
    name: ArrayVec<u8, 8>,
    // The words that have ended; the first is the name.
    words: usize,
    // The digits of the argument so far, unless there is another byte or a number that no u64 holds; and whether a minus is among them.
    digits: Option<u64>,
    minus: bool,
    arguments: Arguments,
}

// The arguments of the lines so far.
#[derive(Drop)]
pub struct Arguments {
    values: [i64; MOST_ARGUMENTS],
}

impl Arguments {
    // An argument in its type; one that the type can't represent is 0.
    pub fn at<T: TryFrom<i64> + Default>(&self, place: usize) -> T
    where
        T::Error: Drop,
    {
        self.values
            .get(place)
            .copied()
            .and_then(|value| T::try_from(value).ok())
            .unwrap_or_default()
    }
}

impl Line {
    // Before the first line.
    pub fn new() -> Line {
        Line {
            name: ArrayVec::new(),
            words: 0,
            digits: Some(0),
            minus: false,
            arguments: Arguments {
                values: [i64::MIN; MOST_ARGUMENTS],
            },
        }
    }

    // Before the next line, whose arguments are the last one's until it has its own.
    pub fn begin(&mut self) {
        self.name.clear();
        self.words = 0;
    }

    // One byte more of a word.
    pub fn push(&mut self, byte: u8) {
        if self.words == 0 {
            // A name that has no room left stays full.
            let _ = self.name.try_push(byte);
        } else if byte == b'-' {
            self.minus = true;
        } else {
            self.digits = self.digits.and_then(|digits| with_digit(digits, byte));
        }
    }

    // The end of a word, which may be empty.
    pub fn end_word(&mut self) {
        let value = signed(self.digits, self.minus);
        self.digits = Some(0);
        self.minus = false;
        if self.words == 0 {
            self.words = 1;
            return;
        }
        if let Some(value) = value
            && let Some(place) = self.arguments.values.get_mut(self.words - 1)
        {
            *place = value;
            self.words += 1;
            return;
        }
        self.name.clear();
        self.words = 1;
    }

    // The reply to the call.
    pub fn reply(&self) -> Reply {
        match str::from_utf8(self.name.as_slice()) {
            Ok(name) => calls::answer(name, &self.arguments),
            Err(_) => Reply::Unknown,
        }
    }
}

fn with_digit(number: u64, byte: u8) -> Option<u64> {
    if !byte.is_ascii_digit() {
        return None;
    }
    number.checked_mul(10)?.checked_add(u64::from(byte - b'0'))
}

// The number of digits and a sign, if an i64 holds it.
fn signed(digits: Option<u64>, minus: bool) -> Option<i64> {
    let size = i128::from(digits?);
    i64::try_from(if minus { -size } else { size }).ok()
}
