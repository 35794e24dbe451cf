// Times of day: after a date `09:30`, `09:30:00` and `09:30:00.000000000+00:00`; as an item of its own `9:30 am`.

ghost use Rattle.primitive.specs.Text.{lowered};
ghost use Rattle.text_quick.specs.Clocks.{ClockAt, SecondAt, ZoneAt, HalfDayAt};

use crate::rows;
use times::offset::Offset;
use times::time::Time;

// A time, and the place after it and a blank.
pub(crate) fn clock(s: &[u8], at: usize) -> Option<(Time, usize)>
    ensures { ClockAt (lowered s.now) at result }
{
    if s.len() < 5 || s.len() - 5 < at || s[at + 2] != b':' {
        return None;
    }
    let hour = rows::two(s, at)?;
    if 23 < hour {
        return None;
    }
    let minute = rows::two(s, at + 3)?;
    if 59 < minute {
        return None;
    }
    let next = at + 5;
    if next == s.len() {
        let time = Time {
            hour,
            minute,
            second: 0,
            nanosecond: 0,
            offset: None,
        };
        return Some((time, next));
    }
    second(s, next, hour, minute)
}

// The seconds after hour and minute.
fn second(s: &[u8], at: usize, hour: u8, minute: u8) -> Option<(Time, usize)>
    ensures { SecondAt (lowered s.now) at hour minute result }
{
    if s.len() < 3 || s.len() - 3 < at || s[at] != b':' {
        return None;
    }
    let second = rows::two(s, at + 1)?;
    if 59 < second {
        return None;
    }
    let next = at + 3;
    if next == s.len() {
        let time = Time {
            hour,
            minute,
            second,
            nanosecond: 0,
            offset: None,
        };
        return Some((time, next));
    }
    fraction_and_zone(s, next, hour, minute, second)
}

// Nine digits of a fraction and the offset after the seconds; then the end of the text, or a blank and a sign or a digit.
fn fraction_and_zone(s: &[u8], at: usize, hour: u8, minute: u8, second: u8) -> Option<(Time, usize)>
    ensures { ZoneAt (lowered s.now) at hour minute second result }
{
    if s.len() < 16 || s.len() - 16 < at || s[at] != b'.' {
        return None;
    }
    let nanosecond = rows::nine(s, at + 1)?;
    let sign = s[at + 10];
    if sign != b'+' && sign != b'-' {
        return None;
    }
    if s[at + 13] != b':' {
        return None;
    }
    let hours = rows::two(s, at + 11)?;
    if 23 < hours {
        return None;
    }
    let minutes = rows::two(s, at + 14)?;
    if 59 < minutes {
        return None;
    }
    let offset = Offset {
        negative: sign == b'-',
        hours,
        minutes,
    };
    let time = Time {
        hour,
        minute,
        second,
        nanosecond,
        offset: Some(offset),
    };
    let end = at + 16;
    if end == s.len() {
        return Some((time, end));
    }
    if s[end] != b' ' {
        return None;
    }
    let next = end + 1;
    if s.len() <= next || s[next] < b'+' || b'9' < s[next] {
        return None;
    }
    Some((time, next))
}

// `9:30 am` or `9:30 pm`, up to the end of the text.
pub(crate) fn half_day(s: &[u8], at: usize) -> Option<(Time, usize)>
    ensures { HalfDayAt (lowered s.now) at result }
{
    let (hour, next) = rows::short(s, at)?;
    if hour < 1 || 12 < hour || s.len() - next != 6 || s[next] != b':' {
        return None;
    }
    let minute = rows::two(s, next + 1)?;
    if 59 < minute || s[next + 3] != b' ' || s[next + 5] != b'm' {
        return None;
    }
    let hour = match s[next + 4] {
        b'a' => hour % 12,
        b'p' => hour % 12 + 12,
        _ => return None,
    };
    let time = Time {
        hour,
        minute,
        second: 0,
        nanosecond: 0,
        offset: None,
    };
    Some((time, next + 6))
}
