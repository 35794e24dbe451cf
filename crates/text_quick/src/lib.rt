// Texts of the commonest forms, read at once: a date, then a time of day or none, then one relative item or none, as
// `2024-03-13 09:30:00.000000000+00:00 +5 seconds`, `3/13/2024`, `13 march 2024 9:30 am`. `text_reader` tries these first; any other text is
// read by `text_general`.
//
// The quick readers return a match only if the definitions read the same; their promises say so. If they return none, nothing is said.

#![tactic(auto)]

mod clocks;
mod days;
mod rows;
mod shifts;

ghost use Rattle.std.specs.Prelude.{◌≡◌, true, ◌<◌, ◌≤◌, length};
ghost use Rattle.primitive.specs.Text.{lowered};
ghost use Rattle.extended.specs.Extended.{accept};
ghost use Rattle.answers.specs.Refusals.{outcome_of};
ghost use Rattle.builder.proofs.DateAndTime.{offset_or};
ghost use Rattle.text_quick.specs.Days.{OtherDate};
ghost use Rattle.text_quick.specs.Shapes.{ShapeOf, SeparatorAt, at_midnight, record_of, AtOnce};

use answers::Refusal;
use extended::{DateParts, ExtendedDateTime, TimeParts};
use times::offset::Offset;
use times::time::Time;

// A longer text is not tried: of these forms it could only be one with many zeros before a number.
const LONGEST: usize = 128;

// A date and a time of day, midnight where none is given, and the place after them and the blanks that follow.
#[derive(Clone, Copy)]
struct Shape {
    date: DateParts,
    time: Time,
    next: usize,
}

// The record of a text under an accepted base, if the text is of one of these forms.
pub fn at_once(s: &[u8], base: ExtendedDateTime) -> Option<ExtendedDateTime>
    ensures { AtOnce (lowered s.now) base result }
{
    if LONGEST < s.len() {
        return None;
    }
    let x = read_shape(s)?;
    let dt = moment(x, base.offset_seconds).ok()?;
    if s.len() <= x.next {
        return Some(dt);
    }
    let relative = crate::shifts::shift(s, x.next)?;
    builder::add_relative(relative, dt).ok()
}

// The date and the time of day at the front of a text.
fn read_shape(s: &[u8]) -> Option<Shape>
    ensures { ShapeOf (lowered s.now) result }
{
    if s.len() < 8 {
        return None;
    }
    if s[4] == b'-' {
        return iso_shape(s);
    }
    other_shape(s)
}

// A date that begins with a number or with a month's name.
fn other_date(s: &[u8]) -> Option<(DateParts, usize)>
    requires { 0 < length s.now }
    ensures { OtherDate (lowered s.now) result }
{
    if b'9' < s[0] {
        return crate::days::name_date(s);
    }
    crate::days::number_date(s)
}

// An ISO date, with the time in the same item or alone.
fn iso_shape(s: &[u8]) -> Option<Shape>
    ensures { ShapeOf (lowered s.now) result }
{
    let (date, at) = crate::days::iso_date(s)?;
    if at == s.len() {
        return Some(midnight(date, at));
    }
    let b = s[at];
    let start = at + 1;
    if timed(s, at) {
        let (time, next) = crate::clocks::clock(s, start)?;
        return Some(Shape { date, time, next });
    }
    if b == b' ' {
        return Some(midnight(date, start));
    }
    None
}

// Whether there is a blank or a `t`, and a time of two digits, a colon and more seems to follow.
#[tactic(auto, using(crate::proofs::Fronts::separator_at))]
fn timed(s: &[u8], at: usize) -> bool
    requires { at < length s.now }
    ensures { result ≡ true → SeparatorAt (lowered s.now) at }
{
    s.len() - at >= 4 && s[at + 3] == b':' && matches!(primitive::to_lower(s[at]), b' ' | b't')
}

// The start of a day.
fn midnight(date: DateParts, next: usize) -> Shape
    ensures { result ≡ at_midnight date next }
{
    let time = Time {
        hour: 0,
        minute: 0,
        second: 0,
        nanosecond: 0,
        offset: None,
    };
    Shape { date, time, next }
}

// Another date, with a time as an item of its own or without one.
fn other_shape(s: &[u8]) -> Option<Shape>
    requires { 0 < length s.now }
    ensures { ShapeOf (lowered s.now) result }
{
    let (date, at) = other_date(s)?;
    if !clocked(s, at) {
        return Some(midnight(date, at));
    }
    let (time, next) = crate::clocks::half_day(s, at)?;
    Some(Shape { date, time, next })
}

// Whether there is a colon after one byte or two.
fn clocked(s: &[u8], at: usize) -> bool {
    s.len() >= 3 && at <= s.len() - 3 && (s[at + 1] == b':' || s[at + 2] == b':')
}

// The record of a shape, at the offset of the base where it has none.
fn moment(x: Shape, base: i32) -> Result<ExtendedDateTime, Refusal>
    ensures { outcome_of result ≡ accept (record_of x base) }
{
    let time = TimeParts {
        hour: x.time.hour,
        minute: x.time.minute,
        second: x.time.second,
        nanosecond: x.time.nanosecond,
    };
    ExtendedDateTime::new(x.date, time, offset_or(base, x.time.offset))
}

// The offset that is given, or that of the base.
fn offset_or(base: i32, given: Option<Offset>) -> i32
    ensures { result ≡ offset_or base given }
{
    given.map_or(base, |offset| offset.total_seconds())
}
