// Records and moments, after the Rust's extended.rs: the seconds from 1970 to a record, the record of a moment, a record some seconds later,
// and the days of the week and of the year. The definitions and laws are in `extended`; sums of larger units are in `sums`.
//
// Numbers are widened by `as` in sums and products, where `from` in each term is no plainer. That each cast that narrows fits is proved.
#![tactic(auto)]

ghost use Rattle.std.specs.Prelude.{◌≡◌, ◌<◌, pos, ◌-ℤ◌};
ghost use Rattle.calendar.specs.Calendar.{day_number};
ghost use Rattle.extended.specs.Calendar.{weekday};
ghost use Rattle.answers.specs.Outcome.{accepted};
ghost use Rattle.answers.specs.Refusals.{outcome_of};
ghost use Rattle.extended.specs.Extended.{test, moment, unix_seconds, from_clock, from_unix_seconds, carried, add_seconds, day_of_year, weekday_sunday0, weekday_monday0};

use answers::Refusal;
use extended::{DateParts, ExtendedDateTime, TimeParts};

// From 0000-01-01 to 1970-01-01.
const SECONDS_TO_1970: i128 = 62167219200;

#[tactic(auto, unfolding(extended::specs::Extended::from_unix_seconds, integers::specs::Integers::sum, integers::specs::Integers::natural_of))]
pub fn from_unix_seconds(
    unix_seconds: i64,
    nanosecond: u32,
    offset_seconds: i32,
) -> Result<ExtendedDateTime, Refusal>
    ensures { outcome_of result ≡ from_unix_seconds unix_seconds nanosecond offset_seconds }
{
    if nanosecond > 999999999 {
        return Err(Refusal::Nanosecond);
    }
    extended::test_offset(offset_seconds)?;
    let local = unix_seconds
        .checked_add(i64::from(offset_seconds))
        .ok_or(Refusal::Sum)?;
    let clock = u64::try_from(i128::from(local) + SECONDS_TO_1970).map_err(|_| Refusal::Under)?;
    from_clock(clock, nanosecond, offset_seconds)
}

// The seconds from 1970-01-01 00:00:00 at offset 0.
#[tactic(auto, unfolding(extended::specs::Extended::unix_seconds))]
pub fn unix_seconds(dt: ExtendedDateTime) -> Result<i64, Refusal>
    ensures { outcome_of result ≡ unix_seconds dt }
{
    dt.test()?; // its own refusal
    Ok(moment(dt))
}

#[tactic(auto, unfolding(extended::specs::Extended::add_seconds, integers::specs::Integers::sum))]
pub fn checked_add_seconds(
    dt: ExtendedDateTime,
    delta_seconds: i64,
    delta_nanoseconds: u32,
) -> Result<ExtendedDateTime, Refusal>
    ensures { outcome_of result ≡ add_seconds dt delta_seconds delta_nanoseconds }
{
    dt.test()?;
    let unix = moment(dt).checked_add(delta_seconds).ok_or(Refusal::Sum)?;
    let nanosecond = dt
        .nanosecond
        .checked_add(delta_nanoseconds)
        .ok_or(Refusal::Sum)?;
    carry(unix, nanosecond, dt.offset_seconds)
}

#[tactic(auto, unfolding(extended::specs::Extended::day_of_year))]
pub fn day_of_year(dt: ExtendedDateTime) -> Result<u32, Refusal>
    ensures { outcome_of result ≡ day_of_year dt }
{
    dt.test()?;
    Ok(calendar::days_before_month(dt.year, dt.month) + dt.day as u32)
}

// 0 for Sunday to 6 for Saturday.
#[tactic(auto, unfolding(extended::specs::Extended::weekday_sunday0, extended::specs::Calendar::sunday_weekday))]
pub fn weekday_sunday0(dt: ExtendedDateTime) -> Result<u32, Refusal>
    ensures { outcome_of result ≡ weekday_sunday0 dt }
{
    dt.test()?;
    Ok(weekday(days(dt), 6))
}

// 0 for Monday to 6 for Sunday.
#[tactic(auto, unfolding(extended::specs::Extended::weekday_monday0, extended::specs::Calendar::monday_weekday))]
pub fn weekday_monday0(dt: ExtendedDateTime) -> Result<u32, Refusal>
    ensures { outcome_of result ≡ weekday_monday0 dt }
{
    dt.test()?;
    Ok(weekday(days(dt), 5))
}

// The day of the week of a day number, where day 0 has the number `start`.
#[tactic(auto, using(calendar::proofs::Counting::weekday_closed))]
fn weekday(day: u64, start: u8) -> u32
    requires { start < 7 }
    ensures { result ≡ weekday start day }
{
    ((day % 7) as u32 + start as u32) % 7
}

// The moment of an accepted record.
fn moment(dt: ExtendedDateTime) -> i64
    requires { test dt ≡ accepted tt }
    ensures { result ≡ moment dt }
{
    let clock = days(dt) * 86400
        + (dt.hour as u64) * 3600
        + (dt.minute as u64) * 60
        + dt.second as u64;
    since_epoch(clock, dt.offset_seconds)
}

// The day number of a record's date.
fn days(dt: ExtendedDateTime) -> u64
    ensures { result ≡ day_number dt.year dt.month dt.day }
{
    calendar::days_from_civil(dt.year, dt.month, dt.day)
}

// The record whose own clock is `clock` seconds after 0000-01-01 00:00:00.
#[tactic(auto, unfolding(extended::specs::Extended::from_clock, extended::specs::Extended::clock_record))]
fn from_clock(clock: u64, nanosecond: u32, offset_seconds: i32) -> Result<ExtendedDateTime, Refusal>
    ensures { outcome_of result ≡ from_clock clock nanosecond offset_seconds }
{
    let civil = calendar::civil_from_days(clock / 86400);
    extended::test_year(civil.year)?;
    let date = DateParts {
        year: civil.year as u32,
        month: civil.month,
        day: civil.day,
    };
    let time = TimeParts {
        hour: (clock % 86400 / 3600) as u8,
        minute: (clock % 3600 / 60) as u8,
        second: (clock % 60) as u8,
        nanosecond,
    };
    Ok(extended::from_parts(date, time, offset_seconds))
}

// At most one second is carried out of the nanoseconds.
#[tactic(auto, unfolding(extended::specs::Extended::carried, integers::specs::Integers::sum))]
fn carry(unix: i64, nanosecond: u32, offset_seconds: i32) -> Result<ExtendedDateTime, Refusal>
    ensures { outcome_of result ≡ carried unix nanosecond offset_seconds }
{
    if nanosecond < 1000000000 {
        return from_unix_seconds(unix, nanosecond, offset_seconds);
    }
    let next = unix.checked_add(1).ok_or(Refusal::Sum)?;
    from_unix_seconds(next, nanosecond - 1000000000, offset_seconds)
}

// The moment of a clock at an offset.
fn since_epoch(clock: u64, offset_seconds: i32) -> i64
    requires { clock < 4611686018427387904 }
    ensures { result ≡ pos clock -ℤ offset_seconds -ℤ pos 62167219200 }
{
    clock as i64 - offset_seconds as i64 - 62167219200
}
