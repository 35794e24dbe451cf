// Weeks, as ISO 8601 counts them: from Monday to Sunday, each in the year that its Thursday is in. The definitions count days and Thursdays
// (specs/Weeks.antt); the code counts the weeks of the years before.
#![tactic(auto)]

ghost use Rattle.std.specs.Prelude.{◌≡◌, ◌+◌, ◌<◌, leb};
ghost use Rattle.calendar.specs.Calendar.{days_before_year};
ghost use Rattle.weeks.specs.Weeks.{thursdays, weeks_in, day_of};

// A week date, as 2020-W53-5: the fifth day, Friday, of week 53.
#[derive(Clone, Copy)]
pub struct WeekDate {
    pub year: u32,
    pub week: u8,
    // 1 for Monday to 7 for Sunday.
    pub day: u8,
}

// The days of a week.
const DAYS: u8 = 7;

// The weeks that every year has; some have one more.
const WEEKS: u8 = 52;

// The day number of a week date, if its year has that week. Week 1 of year 0 begins on day 2, 0000-01-03.
pub fn day_of(date: WeekDate) -> Option<u64>
    ensures { result ≡ day_of date }
{
    if date.week < 1 {
        return None;
    }
    if date.day < 1 {
        return None;
    }
    if DAYS < date.day {
        return None;
    }
    if !has_week(date.year, date.week) {
        return None;
    }
    let week = weeks_before(date.year) + date.week as u64;
    Some(7 * week + date.day as u64 - 6)
}

// Whether a year has week `week`. Every year has 52, so that most calls end at the first test.
fn has_week(year: u32, week: u8) -> bool
    ensures { result ≡ leb week (weeks_in year) }
{
    if week <= WEEKS {
        return true;
    }
    weeks_before(year) + week as u64 <= weeks_through(year)
}

// The weeks of the years before `year`: as many as Thursdays, of which day 5 is the first.
fn weeks_before(year: u32) -> u64
    ensures { (result ≡ thursdays 0 (days_before_year year)) × (result < 1099511627776) }
{
    (calendar::first_day(year) + 1) / 7
}

// The weeks of the years up to `year`.
fn weeks_through(year: u32) -> u64
    ensures { result ≡ thursdays 0 (days_before_year (year + 1)) }
{
    (calendar::first_day(year) + 366 + calendar::is_leap_year(year) as u64) / 7
}
