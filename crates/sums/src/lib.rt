// The sums of a record and units of time, after the Rust's extended.rs: days, hours and minutes are so many seconds; years and months keep
// the day, or go on from the last day that the month has. The definitions and laws are in `extended`.
//
// Numbers are widened by `as` in sums and products, where `from` in each term is no plainer. That each cast that narrows fits is proved.
#![tactic(auto)]

ghost use Rattle.std.specs.Prelude.{◌≡◌, ◌+◌, ◌-◌, ◌*◌, ◌≤◌, pos};
ghost use Rattle.answers.specs.Refusals.{outcome_of};
ghost use Rattle.extended.specs.Extended.{add_units, add_days, add_hours, add_minutes, clamp, add_years, add_months};

use answers::Refusal;
use extended::ExtendedDateTime;

const SECONDS_PER_DAY: u32 = 86400;

#[tactic(auto, unfolding(extended::specs::Extended::add_days))]
pub fn checked_add_days(dt: ExtendedDateTime, days: i64) -> Result<ExtendedDateTime, Refusal>
    ensures { outcome_of result ≡ add_days dt days }
{
    checked_add_units(dt, days, SECONDS_PER_DAY)
}

#[tactic(auto, unfolding(extended::specs::Extended::add_hours))]
pub fn checked_add_hours(dt: ExtendedDateTime, hours: i64) -> Result<ExtendedDateTime, Refusal>
    ensures { outcome_of result ≡ add_hours dt hours }
{
    checked_add_units(dt, hours, 3600)
}

#[tactic(auto, unfolding(extended::specs::Extended::add_minutes))]
pub fn checked_add_minutes(dt: ExtendedDateTime, minutes: i64) -> Result<ExtendedDateTime, Refusal>
    ensures { outcome_of result ≡ add_minutes dt minutes }
{
    checked_add_units(dt, minutes, 60)
}

// `count` units of `worth` seconds each.
#[tactic(auto, unfolding(extended::specs::Extended::add_units, integers::specs::Integers::product))]
fn checked_add_units(
    dt: ExtendedDateTime,
    count: i64,
    worth: u32,
) -> Result<ExtendedDateTime, Refusal>
    ensures { outcome_of result ≡ add_units worth dt count }
{
    dt.test()?;
    let seconds = count.checked_mul(i64::from(worth)).ok_or(Refusal::Sum)?;
    moments::checked_add_seconds(dt, seconds, 0)
}

#[tactic(auto, unfolding(extended::specs::Extended::add_years, integers::specs::Integers::sum, integers::specs::Integers::natural_of))]
pub fn checked_add_years(dt: ExtendedDateTime, years: i32) -> Result<ExtendedDateTime, Refusal>
    ensures { outcome_of result ≡ add_years dt years }
{
    dt.test()?;
    let sum = i64::from(dt.year)
        .checked_add(i64::from(years))
        .ok_or(Refusal::Sum)?;
    let year = u64::try_from(sum).map_err(|_| Refusal::Under)?;
    clamped(dt, year, dt.month)
}

#[tactic(auto, unfolding(extended::specs::Extended::add_months, integers::specs::Integers::sum, integers::specs::Integers::natural_of))]
pub fn checked_add_months(dt: ExtendedDateTime, months: i32) -> Result<ExtendedDateTime, Refusal>
    ensures { outcome_of result ≡ add_months dt months }
{
    dt.test()?;
    let before = months_before(dt.year, dt.month);
    let sum = before.checked_add(i64::from(months)).ok_or(Refusal::Sum)?;
    let total = u64::try_from(sum).map_err(|_| Refusal::Under)?;
    clamped(dt, total / 12, (total % 12 + 1) as u8)
}

// The months from 0000-01 to a month.
fn months_before(year: u32, month: u8) -> i64
    requires { 1 ≤ month }
    ensures { result ≡ pos (year * 12 + (month - 1)) }
{
    ((year as u64) * 12 + (month - 1) as u64) as i64
}

// The same day of another month, or its last day plus the days that were lost.
#[tactic(auto, unfolding(extended::specs::Extended::clamp))]
fn clamped(dt: ExtendedDateTime, year: u64, month: u8) -> Result<ExtendedDateTime, Refusal>
    ensures { outcome_of result ≡ clamp dt year month }
{
    extended::test_year(year)?;
    let year = year as u32;
    let max_day = extended::days_in_month(year, month);
    if dt.day <= max_day {
        return dt.with_date(year, month, dt.day);
    }
    let next = dt.with_date(year, month, max_day)?;
    checked_add_days(next, i64::from(dt.day - max_day))
}
