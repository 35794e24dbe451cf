// The answers by number: every refusal with its number and its word, a refusal with its place, and the limits of texts,
// packets, boards and years.
//
// A function of the crates above returns a value or a `Refusal`; the definitions (specs/Refusals.antt) see that as an `Outcome`, which has the
// number. The readers of texts and packets return a `PlacedRefusal`, seen as a `Placed`. A new number is added here, in specs/Numbers.antt and
// in specs/Refusals.antt, and then in the header, in hosts/rust and in the README's table.
#![tactic(auto)]

ghost use Rattle.std.specs.Prelude.{◌≡◌};
ghost use Rattle.answers.specs.Refusals.{code};

// The most bytes that a text may have.
pub const MAX_LENGTH: usize = 4096;

// The most items that a text or a packet may have.
pub const MOST_ITEMS: usize = 64;

// The most places that a board may have.
pub const MOST_PLACES: usize = 128;

// The bytes of the longest written record.
pub const LONGEST_TEXT: usize = 41;

// The last year of an accepted record.
pub const GNU_MAX_YEAR: u32 = 2147485547;

#[derive(Clone, Copy, Debug, PartialEq, Eq)]
pub enum Refusal {
    // oversize: a text over 4096 bytes, a 65th item, a packet's item count above 64, a board of more than 128 places, or a count above its places
    Oversize = 1,
    // foreign: a byte of 128 or more
    Foreign = 2,
    // unread: no reader matches
    Unread = 3,
    // stopped: a reader stops
    Stopped = 4,
    // packet: a packet rule is broken, or an id is twice on a board
    Packet = 5,
    // twice: a second date, time, weekday or zone
    Twice = 6,
    // rival: a time with an offset after a zone
    Rival = 7,
    // pure: a pure number that is no hour and minute
    Pure = 8,
    // over: a year above 2147485547, or a pure year that no u32 can represent
    Over = 9,
    // under: a year below 0, or a sum whose year no u32 can represent
    Under = 10,
    // month: outside 1 to 12
    Month = 11,
    // day: outside 1 to the month's last
    Day = 12,
    // hour: above 23
    Hour = 13,
    // minute: above 59
    Minute = 14,
    // second: above 59
    Second = 15,
    // nanosecond: above 999999999
    Nanosecond = 16,
    // offset: more than 86400 seconds either way
    Offset = 17,
    // sum: a sum or product that leaves an i64, nanoseconds that leave a u32, or a weekday's days that leave an i32
    Sum = 18,
    // short: the lent bytes are too few for the text
    Short = 19,
    // seam: an offset of no whole minutes, on writing
    Seam = 20,
    // week: a week that its year does not have, or a day of the week outside 1 to 7
    Week = 21,
    // fraction: the fraction of a text's item has a digit other than 0 after the ninth
    Fraction = 22,
    // present: an id that joins a board is on it already
    Present = 23,
    // full: a board has no free place
    Full = 24,
    // absent: an id that leaves a board is not on it
    Absent = 25,
}

impl From<Refusal> for u32 {
    ghost from_gives = { λ refusal n. n ≡ code refusal };

    fn from(refusal: Refusal) -> u32 {
        refusal as u32
    }
}

impl Refusal {
    // The refusal at a place.
    pub fn at(self, place: usize) -> PlacedRefusal
        ensures { result ≡ record { refusal = self; place = place } }
    {
        PlacedRefusal {
            refusal: self,
            place,
        }
    }
}

// A refusal of a text or a packet, and where in it.
#[derive(Clone, Copy, Debug, PartialEq, Eq)]
pub struct PlacedRefusal {
    pub refusal: Refusal,
    pub place: usize,
}

// A refusal without a place of its own is at place 0.
impl From<Refusal> for PlacedRefusal {
    ghost from_gives = { λ refusal placed. placed ≡ record { refusal = refusal; place = 0 } };

    fn from(refusal: Refusal) -> PlacedRefusal {
        refusal.at(0)
    }
}
