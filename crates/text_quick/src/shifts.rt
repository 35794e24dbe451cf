// The relative item that ends a text: `+3 days`, `2 weeks ago`. A sign or none, a number, a blank, a unit, and `ago` after a blank or
// nothing.

ghost use Rattle.std.specs.Prelude.{◌<◌, length, get_or};
ghost use Rattle.primitive.specs.Text.{lowered};
ghost use Rattle.text_quick.specs.Shifts.{ShiftAt, BehindSign, CountAt, UnitAt, Plural, WayAt};

use relative::Relative;
use relative_readers::unit::Unit;

// The relative item there. A number without a sign has at most four digits: a longer one may be a date.
pub(crate) fn shift(s: &[u8], at: usize) -> Option<Relative>
    ensures { ShiftAt (lowered s.now) at result }
{
    if s.len() <= at {
        return None;
    }
    let start = behind_sign(s, at);
    let (n, end) = numbers::dec_u32(s, start)?;
    if start == at && end - at > 4 {
        return None;
    }
    count(s, end, s[at] == b'-', n)
}

// After a plus or a minus, or the same place.
fn behind_sign(s: &[u8], at: usize) -> usize
    requires { at < length s.now }
    ensures { BehindSign (get_or s.now at 0) at result }
{
    if matches!(s[at], b'+' | b'-') {
        at + 1
    } else {
        at
    }
}

// A blank, the unit, and which way it goes. The bound keeps a number of weeks in an i32.
fn count(s: &[u8], at: usize, negative: bool, n: u32) -> Option<Relative>
    ensures { CountAt (lowered s.now) at negative n result }
{
    if 300000000 < n || s.len() <= at || s[at] != b' ' {
        return None;
    }
    let (unit, end) = unit_at(s, at + 1)?;
    let ago = ago(s, behind_plural(s, end))?;
    unit.times(numbers::with_sign(negative != ago, n) as i32)
}

// The name of a unit.
fn unit_at(s: &[u8], at: usize) -> Option<(Unit, usize)>
    ensures { UnitAt (lowered s.now) at result }
{
    for (word, unit) in &UNITS {
        if let Some(end) = primitive::tag(s, at, word) {
            return Some((*unit, end));
        }
    }
    None
}

// The units that are read, with their names in lower case.
const UNITS: [(&[u8], Unit); 6] = [
    (b"second", Unit::Second),
    (b"day", Unit::Day),
    (b"week", Unit::Week),
    (b"month", Unit::Month),
    (b"hour", Unit::Hour),
    (b"year", Unit::Year),
];

// After an `s`, or the same place.
fn behind_plural(s: &[u8], at: usize) -> usize
    ensures { Plural (lowered s.now) at result }
{
    if at < s.len() && primitive::to_lower(s[at]) == b's' {
        return at + 1;
    }
    at
}

// Whether a blank and `ago` follow, up to the end of the text, or nothing.
fn ago(s: &[u8], at: usize) -> Option<bool>
    ensures { WayAt (lowered s.now) at result }
{
    if s.len() <= at {
        return Some(false);
    }
    if s[at] == b' ' && primitive::tag(s, at + 1, b"ago") == Some(s.len()) {
        return Some(true);
    }
    None
}
