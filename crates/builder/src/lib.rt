// The building of a record from the base and what the items give, as `build_extended` in items/builder.rs. What the items give is in `gather`.

#![tactic(auto)]

ghost use Rattle.std.specs.Prelude.{◌≡◌, ◌<◌};
ghost use Rattle.answers.specs.Refusals.{outcome_of, placed_of};
ghost use Rattle.builder.specs.Building.{start, on_date, on_offset, on_time, ahead, weeks, weekday_sum, delta, forwarded, on_weekday, add_relative, add_relatives, with_zone, on_zone, absolute, build_extended, built};

use answers::{PlacedRefusal, Refusal};
use dates::date::Date;
use extended::ExtendedDateTime;
use items::Weekday;
use relative::Relative;
use rules::{DateTimeBuilder, Zone};
use times::offset::{Normalized, Offset};
use times::time::Time;

// The record of items: what those that are not relative give, and the relative ones.
#[tactic(auto, unfolding(crate::specs::Building::built))]
pub fn build(
    standing: &Result<DateTimeBuilder, PlacedRefusal>,
    relatives: &[Relative],
    base: ExtendedDateTime,
) -> Result<ExtendedDateTime, PlacedRefusal>
    ensures { placed_of result ≡ built (placed_of standing.now) relatives.now base }
{
    match standing {
        Ok(builder) => Ok(build_extended(builder, relatives, base)?),
        Err(refused) => Err(*refused),
    }
}

#[tactic(auto, unfolding(crate::specs::Building::build_extended))]
pub(crate) fn build_extended(
    builder: &DateTimeBuilder,
    relatives: &[Relative],
    base: ExtendedDateTime,
) -> Result<ExtendedDateTime, Refusal>
    ensures { outcome_of result ≡ build_extended builder.now relatives.now base }
{
    let dt = absolute(builder, relatives.is_empty(), base)?;
    let dt = add_relatives(relatives, dt)?;
    on_zone(builder.zone, dt)
}

// The clock at its start, and then the date, the time and the weekday. `bare`: there is no relative item.
#[tactic(auto, unfolding(crate::specs::Building::absolute))]
fn absolute(
    builder: &DateTimeBuilder,
    bare: bool,
    base: ExtendedDateTime,
) -> Result<ExtendedDateTime, Refusal>
    ensures { outcome_of result ≡ absolute builder.now bare base }
{
    let dt = start(builder, bare, base)?;
    let dt = on_date(builder.date, dt)?;
    let dt = on_time(builder.time, dt)?;
    on_weekday(builder.weekday, dt)
}

#[tactic(auto, unfolding(crate::specs::Building::start, extended::specs::Extended::accept))]
fn start(
    builder: &DateTimeBuilder,
    bare: bool,
    base: ExtendedDateTime,
) -> Result<ExtendedDateTime, Refusal>
    ensures { outcome_of result ≡ start builder.now bare base }
{
    if builder.need_midnight(bare) {
        return base.with_time(0, 0, 0, 0);
    }
    base.test()?;
    Ok(base)
}

// What is not given changes nothing.
#[tactic(auto, unfolding(crate::specs::Building::on_date))]
fn on_date(given: Option<Date>, dt: ExtendedDateTime) -> Result<ExtendedDateTime, Refusal>
    ensures { outcome_of result ≡ on_date given dt }
{
    let Some(date) = given else {
        return Ok(dt);
    };
    dt.with_date(date.year.unwrap_or(dt.year), date.month, date.day)
}

#[tactic(auto, unfolding(crate::specs::Building::on_time))]
fn on_time(given: Option<Time>, dt: ExtendedDateTime) -> Result<ExtendedDateTime, Refusal>
    ensures { outcome_of result ≡ on_time given dt }
{
    let Some(time) = given else {
        return Ok(dt);
    };
    let dt = on_offset(time.offset, dt)?;
    dt.with_time(time.hour, time.minute, time.second, time.nanosecond)
}

fn on_offset(given: Option<Offset>, dt: ExtendedDateTime) -> Result<ExtendedDateTime, Refusal>
    ensures { outcome_of result ≡ on_offset given dt }
{
    let Some(offset) = given else {
        return Ok(dt);
    };
    dt.with_offset(offset.total_seconds())
}

// The clock is at midnight or at the time that is given.
#[tactic(auto, using(crate::proofs::Weekdays::today_below), unfolding(crate::specs::Building::on_weekday))]
fn on_weekday(given: Option<Weekday>, dt: ExtendedDateTime) -> Result<ExtendedDateTime, Refusal>
    ensures { outcome_of result ≡ on_weekday given dt }
{
    let Some(weekday) = given else {
        return Ok(dt);
    };
    let today = moments::weekday_monday0(dt)?;
    forwarded(weekday, today, dt)
}

// Forward from today to the weekday.
#[tactic(auto, unfolding(crate::specs::Building::forwarded))]
fn forwarded(
    weekday: Weekday,
    today: u32,
    dt: ExtendedDateTime,
) -> Result<ExtendedDateTime, Refusal>
    requires { today < 7 }
    ensures { outcome_of result ≡ forwarded weekday today dt }
{
    let days = delta(weekday, today)?;
    sums::checked_add_days(dt, i64::from(days))
}

// The days from today to the weekday.
#[tactic(auto, using(crate::proofs::Weekdays::day_below), unfolding(crate::specs::Building::delta))]
fn delta(weekday: Weekday, today: u32) -> Result<i32, Refusal>
    requires { today < 7 }
    ensures { outcome_of result ≡ delta weekday today }
{
    let target = u32::from(items::day_index(weekday.day));
    weekday_sum(weeks(weekday.offset, today == target), ahead(today, target))
}

// The days from today to the next day that is the target, 0 if today is.
#[tactic(auto, using(crate::proofs::Weekdays::ahead_requested))]
fn ahead(today: u32, target: u32) -> u32
    requires { (today < 7) × (target < 7) }
    ensures { result ≡ ahead today target }
{
    (target + 7 - today) % 7
}

// The weeks to add: one less if they are above 0 and today is another day of the week.
#[tactic(auto, unfolding(crate::specs::Building::weeks))]
fn weeks(offset: i32, same: bool) -> i32
    ensures { result ≡ weeks offset same }
{
    if same || offset <= 0 {
        return offset;
    }
    offset - 1
}

// The Rust's sum is one of i32, and overflows; here it is refused.
#[tactic(auto, unfolding(crate::specs::Building::weekday_sum))]
fn weekday_sum(weeks: i32, ahead: u32) -> Result<i32, Refusal>
    ensures { outcome_of result ≡ weekday_sum weeks ahead }
{
    let days = weeks.checked_mul(7).ok_or(Refusal::Sum)?;
    days.checked_add_unsigned(ahead).ok_or(Refusal::Sum)
}

fn add_relatives(relatives: &[Relative], dt: ExtendedDateTime) -> Result<ExtendedDateTime, Refusal>
    ensures { outcome_of result ≡ add_relatives relatives.now dt }
{
    let mut dt = dt;
    for relative in relatives {
        dt = add_relative(*relative, dt)?;
    }
    Ok(dt)
}

// The record that one relative item leads to. As a call, it would make `text_quick` build the item in memory: 20 to 50 instructions a text.
#[inline(always)]
#[tactic(auto, unfolding(crate::specs::Building::add_relative))]
pub fn add_relative(relative: Relative, dt: ExtendedDateTime) -> Result<ExtendedDateTime, Refusal>
    ensures { outcome_of result ≡ add_relative relative dt }
{
    match relative {
        Relative::Years(years) => sums::checked_add_years(dt, years),
        Relative::Months(months) => sums::checked_add_months(dt, months),
        Relative::Days(days) => sums::checked_add_days(dt, i64::from(days)),
        Relative::Hours(hours) => sums::checked_add_hours(dt, i64::from(hours)),
        Relative::Minutes(minutes) => sums::checked_add_minutes(dt, i64::from(minutes)),
        Relative::Seconds(seconds, nanos) => moments::checked_add_seconds(dt, seconds, nanos),
    }
}

#[tactic(auto, unfolding(crate::specs::Building::on_zone))]
fn on_zone(given: Option<Zone>, dt: ExtendedDateTime) -> Result<ExtendedDateTime, Refusal>
    ensures { outcome_of result ≡ on_zone given dt }
{
    match given {
        Some(Zone::Offset(offset)) => with_zone(offset.normalize(), dt),
        Some(Zone::Local) => Ok(dt),
        None => Ok(dt),
    }
}

#[tactic(auto, unfolding(crate::specs::Building::with_zone))]
fn with_zone(zone: Normalized, dt: ExtendedDateTime) -> Result<ExtendedDateTime, Refusal>
    ensures { outcome_of result ≡ with_zone zone dt }
{
    let dt = sums::checked_add_hours(dt, zone.hour_adjustment)?;
    dt.with_offset(zone.offset.total_seconds())
}
