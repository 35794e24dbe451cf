// The readers of times of day, as in items/time.rs: hours and minutes with seconds or without them, in 24 hours with a correction or in 12
// hours with am or pm. The definitions and laws are in `times`.
//
// - Hour 0 with am or pm stops the reading; so does a correction out of range.
// - What does not fit is left unread: in `10:00:60` the time ends before `:60`.

#![tactic(auto)]

ghost use Rattle.std.specs.Prelude.{◌≡◌, ◌+◌, ◌%◌, cond};
ghost use Rattle.primitive.specs.Answer.{matched, carry, or_else, answer_of, stop_answer, lossy_answer, lossy_stop_answer};
ghost use Rattle.primitive.specs.Text.{lowered};
ghost use Rattle.times.specs.Time.{below, second, optional_second, optional_correction, offset_behind, minutes_behind, iso, meridiem, parse};
ghost use Rattle.times.specs.Fronts.{half_day, whole_day, hour_alone, hour_minute, am_or_pm};

use primitive::{Miss, SecAndNsec};
use times::offset::Offset;
use times::time::Time;

// The seconds of a time, where they end, and whether their fraction lost a digit: in 16 bytes, where a tuple takes 24.
#[derive(Clone, Copy)]
struct Seconds {
    second: u8,
    dropped: bool,
    nanosecond: u32,
    next: usize,
}

impl Seconds {
    fn sec_and_nsec(self) -> SecAndNsec<u8>
        ensures { result ≡ record { sec = self.second; nsec = self.nanosecond } }
    {
        SecAndNsec {
            sec: self.second,
            nsec: self.nanosecond,
        }
    }
}

// A time in 24 hours or in 12 hours. The hour, the minute and the second are read once for both.
#[tactic(auto, using(times::proofs::Fronts::fronts))]
pub fn parse(s: &[u8], at: usize) -> Result<(Time, usize, bool), Miss>
    ensures { lossy_stop_answer result ≡ parse (lowered s.now) at }
{
    let (hour, at) = below(s, at, 24).ok_or(Miss::NoMatch)?;
    match spaces::colon(s, at) {
        Some(next) => hour_minute(s, next, hour),
        None => hour_alone(s, at, hour),
    }
}

// What follows an hour without a colon: am or pm, or else an offset.
#[tactic(auto, using(times::proofs::Times::times), unfolding(times::specs::Fronts::hour_alone))]
fn hour_alone(s: &[u8], at: usize, hour: u8) -> Result<(Time, usize, bool), Miss>
    ensures { lossy_stop_answer result ≡ hour_alone hour (lowered s.now) at }
{
    match half_day(s, at, hour, 0, SecAndNsec { sec: 0, nsec: 0 }) {
        Ok((time, next)) => Ok((time, next, false)),
        Err(Miss::NoMatch) => hour_offset(s, at, hour),
        Err(miss) => Err(miss),
    }
}

// What follows an hour and a colon: minutes, seconds or none, and then am or pm, or else a correction or none.
#[tactic(auto, using(times::proofs::Times::times), unfolding(times::specs::Time::minute, times::specs::Fronts::hour_minute))]
fn hour_minute(s: &[u8], at: usize, hour: u8) -> Result<(Time, usize, bool), Miss>
    ensures { lossy_stop_answer result ≡ hour_minute hour (lowered s.now) at }
{
    let (minute, at) = below(s, at, 60).ok_or(Miss::NoMatch)?;
    let v = optional_second(s, at);
    let (time, next) = half_or_whole_day(s, v.next, hour, minute, v.sec_and_nsec())?;
    Ok((time, next, v.dropped))
}

#[tactic(auto, using(times::proofs::Times::times))]
fn half_or_whole_day(
    s: &[u8],
    at: usize,
    hour: u8,
    minute: u8,
    v: SecAndNsec<u8>,
) -> Result<(Time, usize), Miss>
    ensures { stop_answer result ≡ or_else (half_day hour minute v (lowered s.now) at) (whole_day hour minute v (lowered s.now) at) }
{
    match half_day(s, at, hour, minute, v) {
        Err(Miss::NoMatch) => whole_day(s, at, hour, minute, v),
        read => read,
    }
}

// am or pm, where the hour is one of 12. Hour 0 stops.
#[tactic(auto, using(times::proofs::Times::times), unfolding(times::specs::Fronts::half_day))]
fn half_day(
    s: &[u8],
    at: usize,
    hour: u8,
    minute: u8,
    v: SecAndNsec<u8>,
) -> Result<(Time, usize), Miss>
    ensures { stop_answer result ≡ half_day hour minute v (lowered s.now) at }
{
    if 12 < hour {
        return Err(Miss::NoMatch);
    }
    let (pm, next) = meridiem(s, at).ok_or(Miss::NoMatch)?;
    if hour == 0 {
        return Err(Miss::Stop);
    }
    Ok((time_of(hour_of(hour, pm), minute, v, None), next))
}

// A correction or none.
#[tactic(auto, using(times::proofs::Times::times), unfolding(times::specs::Fronts::whole_day))]
fn whole_day(
    s: &[u8],
    at: usize,
    hour: u8,
    minute: u8,
    v: SecAndNsec<u8>,
) -> Result<(Time, usize), Miss>
    ensures { stop_answer result ≡ whole_day hour minute v (lowered s.now) at }
{
    let (offset, next) = optional_correction(s, at)?;
    Ok((time_of(hour, minute, v, offset), next))
}

// A time in 24 hours: an hour, and minutes after a colon or else an offset.
#[tactic(auto, using(times::proofs::Hours::hours), unfolding(times::specs::Time::hour24))]
pub fn iso(s: &[u8], at: usize) -> Result<(Time, usize, bool), Miss>
    ensures { lossy_stop_answer result ≡ iso (lowered s.now) at }
{
    let (hour, at) = below(s, at, 24).ok_or(Miss::NoMatch)?;
    match spaces::colon(s, at) {
        Some(next) => clock(s, next, hour),
        None => hour_offset(s, at, hour),
    }
}

// The offset after an hour.
fn hour_offset(s: &[u8], at: usize, hour: u8) -> Result<(Time, usize, bool), Miss>
    ensures { lossy_stop_answer result ≡ offset_behind hour (lowered s.now) at }
{
    let (offset, next) = offsets::timezone_offset(s, at)?;
    let time = time_of(hour, 0, SecAndNsec { sec: 0, nsec: 0 }, Some(offset));
    Ok((time, next, false))
}

// The minutes after an hour and a colon, then seconds or none, then a correction or none.
#[tactic(auto, using(times::proofs::Times::times), unfolding(times::specs::Time::minute, times::specs::Fronts::whole_day))]
fn clock(s: &[u8], at: usize, hour: u8) -> Result<(Time, usize, bool), Miss>
    ensures { lossy_stop_answer result ≡ minutes_behind hour (lowered s.now) at }
{
    let (minute, at) = below(s, at, 60).ok_or(Miss::NoMatch)?;
    let v = optional_second(s, at);
    let (time, next) = whole_day(s, v.next, hour, minute, v.sec_and_nsec())?;
    Ok((time, next, v.dropped))
}

// A correction or none; one that stops is not mended.
#[tactic(auto, using(times::proofs::Times::times), unfolding(times::specs::Time::optional_correction))]
fn optional_correction(s: &[u8], at: usize) -> Result<(Option<Offset>, usize), Miss>
    ensures { stop_answer result ≡ optional_correction (lowered s.now) at }
{
    match offsets::time_zone_correction(s, at) {
        Ok((offset, next)) => Ok((Some(offset), next)),
        Err(Miss::NoMatch) => Ok((None, at)),
        Err(Miss::Stop) => Err(Miss::Stop),
    }
}

// The time of an hour, a minute and seconds, with an offset or without one.
fn time_of(hour: u8, minute: u8, v: SecAndNsec<u8>, offset: Option<Offset>) -> Time
    ensures { result ≡ record { hour = hour; minute = minute; second = v.sec; nanosecond = v.nsec; offset = offset } }
{
    Time {
        hour,
        minute,
        second: v.sec,
        nanosecond: v.nsec,
        offset,
    }
}

// The hour of the day: 12 comes before 1, in each half.
fn hour_of(hour: u8, pm: bool) -> u8
    ensures { result ≡ hour % 12 + cond pm 12 0 }
{
    if pm { hour % 12 + 12 } else { hour % 12 }
}

// am or pm, after space.
#[tactic(auto, using(times::proofs::Fronts::meridiems), unfolding(times::specs::Time::meridiem))]
fn meridiem(s: &[u8], at: usize) -> Option<(bool, usize)>
    ensures { answer_of result ≡ meridiem (lowered s.now) at }
{
    let start = spaces::space(s, at);
    if s.len() <= start {
        return None;
    }
    let letter = primitive::to_lower(s[start]);
    if letter != b'a' {
        if letter != b'p' {
            return None;
        }
    }
    am_or_pm(s, start)
}

#[tactic(auto, using(times::proofs::Times::times), unfolding(primitive::specs::Text::bytes))]
fn am_or_pm(s: &[u8], at: usize) -> Option<(bool, usize)>
    ensures { answer_of result ≡ am_or_pm (lowered s.now) at }
{
    let am = primitive::tag(s, at, b"am").or_else(|| primitive::tag(s, at, b"a.m."));
    if let Some(next) = am {
        return Some((false, next));
    }
    let next = primitive::tag(s, at, b"pm").or_else(|| primitive::tag(s, at, b"p.m."))?;
    Some((true, next))
}

// Seconds after a colon, or 0 where there are none.
#[tactic(auto, using(times::proofs::Times::times), unfolding(times::specs::Time::optional_second))]
fn optional_second(s: &[u8], at: usize) -> Seconds
    ensures { carry result.dropped (matched (record { sec = result.second; nsec = result.nanosecond }) result.next) ≡ optional_second (lowered s.now) at }
{
    match spaces::colon(s, at).and_then(|start| second(s, start)) {
        Some((v, next, dropped)) => Seconds {
            second: v.sec,
            dropped,
            nanosecond: v.nsec,
            next,
        },
        None => Seconds {
            second: 0,
            dropped: false,
            nanosecond: 0,
            next: at,
        },
    }
}

// A number below a limit, after space.
#[tactic(auto, using(times::proofs::Times::times), unfolding(times::specs::Time::below))]
fn below(s: &[u8], at: usize, limit: u8) -> Option<(u8, usize)>
    ensures { answer_of result ≡ below limit (lowered s.now) at }
{
    let (v, next) = numbers::spaced_u8(s, at)?;
    if v < limit { Some((v, next)) } else { None }
}

// A number of seconds from 0 to 59, with a fraction or without one.
#[tactic(auto, using(times::proofs::Times::times), unfolding(times::specs::Time::second))]
fn second(s: &[u8], at: usize) -> Option<(SecAndNsec<u8>, usize, bool)>
    ensures { lossy_answer result ≡ second (lowered s.now) at }
{
    let (v, next, dropped) = epoch::sec_and_nsec(s, spaces::space(s, at))?;
    let sec = v.sec;
    if sec < 60 {
        let value = SecAndNsec {
            sec: sec as u8,
            nsec: v.nsec,
        };
        Some((value, next, dropped))
    } else {
        None
    }
}
