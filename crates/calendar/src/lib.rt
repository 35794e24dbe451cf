// The counted calendar, for any year: leap years, the lengths of months, the day number of a date and the date of a day number.
//
// Numbers are widened by `as` in sums and products, where `from` in each term is no plainer. That each cast that narrows fits is proved.
#![tactic(auto)]

mod cycle;

ghost use Rattle.std.specs.Prelude.{◌≡◌, ◌+◌, ◌-◌, ◌<◌, ◌≤◌};
ghost use Rattle.calendar.specs.Calendar.{leap, month_days, days_before_year, year_days, days_of_months, day_number, Valid, ymd, civil};

pub use cycle::first_day;

pub fn is_leap_year(year: u32) -> bool
    ensures { result ≡ leap year }
{
    (year % 400 == 0) | ((year % 4 == 0) & (year % 100 != 0))
}

const MONTH_DAYS: [u8; 12] = [31, 28, 31, 30, 31, 30, 31, 31, 30, 31, 30, 31];

pub fn days_in_month(year: u32, month: u8) -> u8
    ensures { result ≡ month_days year month }
{
    if month < 1 {
        return 0;
    }
    if month > 12 {
        return 0;
    }
    let i = usize::from(month - 1);
    MONTH_DAYS[i] + ((month == 2) & is_leap_year(year)) as u8
}

// The days of the months of `year` before `month`: those of months on a line, less what February is shorter than on it. Month 0
// counts as month 1, a month above 13 as month 13.
pub fn days_before_month(year: u32, month: u8) -> u32
    ensures { result ≡ days_of_months year (month - 1) }
{
    let month = month.max(1).min(13) as u32;
    let short = (month > 2) as u32 * (2 - is_leap_year(year) as u32);
    (367 * month - 362) / 12 - short
}

// The days of all years before `year`. Of the years that 100 divides, 400 divides one in four.
fn days_before_year(year: u64) -> u64
    requires { year < 1099511627776 }
    ensures { result ≡ days_before_year year }
{
    let centuries = (year + 99) / 100;
    365 * year + (year + 3) / 4 - centuries + (centuries + 3) / 4
}

// A date, with its year in any type.
#[derive(Clone, Copy)]
pub struct Civil<Y> {
    pub year: Y,
    pub month: u8,
    pub day: u8,
}

// The day number of a date. The years here begin in March, 400 of them before year 0: the leap day is then the last day of
// its year, and no year has to be tested for it. January and February are months 13 and 14 of the year before; a month's
// first day lies on a line. Month 0 counts as month 1, a month above 13 as month 13, and day 0 as day 1.
pub fn days_from_civil(year: u32, month: u8, day: u8) -> u64
    ensures { result ≡ day_number year month day }
{
    let month = month.max(1).min(13) as u64;
    let early = (month < 3) as u64;
    let march_year = year as u64 + 400 - early;
    let march_month = month + 12 * early;
    let centuries = march_year / 100;
    let days = 1461 * march_year / 4 - (centuries - centuries / 4);
    days + (979 * march_month - 2919) / 32 + day.max(1) as u64 - 146038
}

// The date of a day number: the block of 400 years that contains it, the year in the block, the month in the year.
pub fn civil_from_days(days: u64) -> Civil<u64>
    ensures { result ≡ civil days }
{
    let day_of_block = (days % 146097) as u32;
    let year_of_block = year_in_block(day_of_block);
    let day_of_year = day_of_block - days_before_year(year_of_block as u64) as u32;
    let date = date_in_year(year_of_block, day_of_year);
    Civil {
        year: days / 146097 * 400 + year_of_block as u64,
        month: date.month,
        day: date.day,
    }
}

// The days that every year has; some have one more.
const DAYS: u64 = 365;

// The same date, found at once where it is one of the first 365 days of `year`.
pub fn civil_from_days_near(days: u64, year: u32) -> Civil<u64>
    ensures { result ≡ civil days }
{
    let first = first_day(year);
    if days < first {
        return civil_from_days(days);
    }
    let day = days - first;
    if DAYS <= day {
        return civil_from_days(days);
    }
    let date = date_in_year(year, day as u32);
    Civil {
        year: year as u64,
        month: date.month,
        day: date.day,
    }
}

// The year of a block of 400 that contains a day of the block. No year has more than 366 days, and the years of a block are
// so few that the quotient is at most one too small.
fn year_in_block(day: u32) -> u32
    requires { day < 146097 }
    ensures { (days_before_year result ≤ day) × (day < days_before_year (result + 1)) }
{
    let year = day / 366;
    year + (days_before_year(year as u64 + 1) <= day as u64) as u32
}

// A month and a day of it, whether or not it has that day.
#[derive(Clone, Copy)]
pub struct MonthDay {
    pub month: u8,
    pub day: u8,
}

// The month and the day of the month of a day of a year. With two days more for February, or one in a leap year, the months
// lie on a line.
fn date_in_year(year: u32, day: u32) -> MonthDay
    requires { day < year_days year }
    ensures { Valid (ymd year result.month result.day) × (days_of_months year (result.month - 1) + (result.day - 1) ≡ day) }
{
    let leap = is_leap_year(year) as u32;
    let late = (day >= 59 + leap) as u32;
    let even = day + late * (2 - leap);
    let month = (12 * even + 373) / 367;
    MonthDay {
        month: month as u8,
        day: (even - (367 * month - 362) / 12 + 1) as u8,
    }
}
