// Dates at the front of a text: `2024-03-13`, `3/13/2024`, `13 march 2024`, `march 13, 2024`. Years have four digits.

ghost use Rattle.primitive.specs.Text.{lowered};
ghost use Rattle.text_quick.specs.Days.{IsoDate, OtherDate, YearAt, UsDate, DayMonthDate, NamedAt};

use crate::rows;
use extended::DateParts;

// Each reader answers a date and where it ends. Whether the month has the day is not asked.

// `2024-03-13`
pub(crate) fn iso_date(s: &[u8]) -> Option<(DateParts, usize)>
    ensures { IsoDate (lowered s.now) result }
{
    if s.len() < 10 || s[4] != b'-' || s[7] != b'-' {
        return None;
    }
    let year = rows::four(s, 0)?;
    let month = rows::two(s, 5)?;
    let day = rows::two(s, 8)?;
    Some((DateParts { year, month, day }, 10))
}

// A number in front: `3/13/2024`, `13 march 2024`.
pub(crate) fn number_date(s: &[u8]) -> Option<(DateParts, usize)>
    ensures { OtherDate (lowered s.now) result }
{
    let (first, at) = rows::short(s, 0)?;
    if s[at] == b'/' {
        return us_date(s, at + 1, first);
    }
    if s[at] != b' ' {
        return None;
    }
    day_month_date(s, at + 1, first)
}

// The day and the year after a month and a slash.
fn us_date(s: &[u8], at: usize, month: u8) -> Option<(DateParts, usize)>
    ensures { UsDate (lowered s.now) at month result }
{
    let (day, at) = rows::short(s, at)?;
    if s[at] != b'/' {
        return None;
    }
    year(s, at + 1, month, day)
}

// The month and the year after a day and a blank.
fn day_month_date(s: &[u8], at: usize, day: u8) -> Option<(DateParts, usize)>
    ensures { DayMonthDate (lowered s.now) at day result }
{
    let (month, end) = month_name(s, at)?;
    year(s, end + 1, month, day)
}

// `may 3, 2024` has 11 bytes.
const SHORTEST_NAMED: usize = 11;

// `march 13, 2024`
pub(crate) fn name_date(s: &[u8]) -> Option<(DateParts, usize)>
    ensures { OtherDate (lowered s.now) result }
{
    // a relative item that begins with a word, as `next year`, is nearly always shorter
    if s.len() < SHORTEST_NAMED {
        return None;
    }
    let (month, end) = month_name(s, 0)?;
    let (day, at) = rows::short(s, end + 1)?;
    let next = at + 1;
    if s[at] != b',' || s.len() <= next || s[next] != b' ' {
        return None;
    }
    year(s, next + 1, month, day)
}

// A year of four digits, and the end of the text or a blank with another byte after it. The answer has the month and the day that were
// read before it.
fn year(s: &[u8], at: usize, month: u8, day: u8) -> Option<(DateParts, usize)>
    ensures { YearAt (lowered s.now) at month day result }
{
    if s.len() < 4 || s.len() - 4 < at {
        return None;
    }
    let year = rows::four(s, at)?;
    let end = at + 4;
    if end == s.len() {
        return Some((DateParts { year, month, day }, end));
    }
    let next = end + 1;
    if s[end] != b' ' || s.len() <= next || s[next] <= b' ' {
        return None;
    }
    Some((DateParts { year, month, day }, next))
}

// The name of a month with a blank after it; the answer is the month and where the name ends.
fn month_name(s: &[u8], at: usize) -> Option<(u8, usize)>
    ensures { NamedAt (lowered s.now) at result }
{
    let (word, end) = primitive::alpha1(s, at)?;
    if s.len() <= end || s[end] != b' ' {
        return None;
    }
    let month = month_names::month_named(word)?;
    Some((month, end))
}
