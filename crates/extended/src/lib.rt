// A date and time whose year may be as large as 2147485547, after the Rust's extended.rs: the record, and the tests that it has to pass. Moments
// are in `moments`, sums in `sums`; the definitions and laws of all three are here.
//
// A record is accepted if `new` refuses none of its numbers. Every function takes any record and any numbers: a record that `new` refuses gets
// `new`'s refusal. The refusals (9 to 18 here) come in the order of the tests.
#![tactic(auto)]

ghost use Rattle.std.specs.Prelude.{◌≡◌};
ghost use Rattle.answers.specs.Refusals.{outcome_of};
ghost use Rattle.extended.specs.Extended.{make, blank_record, date, time, date_of, time_of, test_date, test_time, test_offset, test, test_year, accept, with_date, with_time, with_offset};

use answers::{GNU_MAX_YEAR, Refusal};
pub use calendar::{Civil, MonthDay, days_in_month, is_leap_year};

#[repr(C)]
#[derive(Clone, Copy, Default)]
pub struct ExtendedDateTime {
    pub year: u32,
    pub month: u8,
    pub day: u8,
    pub hour: u8,
    pub minute: u8,
    pub second: u8,
    pub nanosecond: u32,
    // Seconds east of UTC.
    pub offset_seconds: i32,
}

pub type DateParts = Civil<u32>;

#[derive(Clone, Copy)]
pub struct TimeParts {
    pub hour: u8,
    pub minute: u8,
    pub second: u8,
    pub nanosecond: u32,
}

impl ExtendedDateTime {
    #[tactic(auto, unfolding(crate::specs::Extended::accept))]
    pub fn new(
        date: DateParts,
        time: TimeParts,
        offset_seconds: i32,
    ) -> Result<ExtendedDateTime, Refusal>
        ensures { outcome_of result ≡ accept (make date time offset_seconds) }
    {
        let made = from_parts(date, time, offset_seconds);
        made.test()?;
        Ok(made)
    }

    // Eight zeros: the record of a refusal.
    #[tactic(auto, unfolding(crate::specs::Extended::make))]
    pub fn blank() -> ExtendedDateTime
        ensures { result ≡ blank_record }
    {
        ExtendedDateTime::default()
    }

    // What stays has been tested, so only the new part is.
    #[tactic(auto, using(crate::proofs::Parts::parts))]
    pub fn with_date(self, year: u32, month: u8, day: u8) -> Result<ExtendedDateTime, Refusal>
        ensures { outcome_of result ≡ with_date self (date year month day) }
    {
        self.test()?;
        let date = DateParts { year, month, day };
        test_date(date)?;
        Ok(from_parts(date, self.time(), self.offset_seconds))
    }

    #[tactic(auto, using(crate::proofs::Parts::parts))]
    pub fn with_time(
        self,
        hour: u8,
        minute: u8,
        second: u8,
        nanosecond: u32,
    ) -> Result<ExtendedDateTime, Refusal>
        ensures { outcome_of result ≡ with_time self (time hour minute second nanosecond) }
    {
        self.test()?;
        let time = TimeParts {
            hour,
            minute,
            second,
            nanosecond,
        };
        test_time(time)?;
        Ok(from_parts(self.date(), time, self.offset_seconds))
    }

    #[tactic(auto, using(crate::proofs::Parts::parts))]
    pub fn with_offset(self, offset_seconds: i32) -> Result<ExtendedDateTime, Refusal>
        ensures { outcome_of result ≡ with_offset self offset_seconds }
    {
        self.test()?;
        test_offset(offset_seconds)?;
        Ok(from_parts(self.date(), self.time(), offset_seconds))
    }

    // The tests of `new`: the first that the record fails is its refusal.
    pub fn test(self) -> Result<(), Refusal>
        ensures { outcome_of result ≡ test self }
    {
        test_date(self.date())?;
        test_time(self.time())?;
        test_offset(self.offset_seconds)
    }

    // ---- what the functions above share

    fn date(self) -> DateParts
        ensures { result ≡ date_of self }
    {
        DateParts {
            year: self.year,
            month: self.month,
            day: self.day,
        }
    }

    fn time(self) -> TimeParts
        ensures { result ≡ time_of self }
    {
        TimeParts {
            hour: self.hour,
            minute: self.minute,
            second: self.second,
            nanosecond: self.nanosecond,
        }
    }
}

// The one place where a record is put together.
pub fn from_parts(date: DateParts, time: TimeParts, offset_seconds: i32) -> ExtendedDateTime
    ensures { result ≡ make date time offset_seconds }
{
    ExtendedDateTime {
        year: date.year,
        month: date.month,
        day: date.day,
        hour: time.hour,
        minute: time.minute,
        second: time.second,
        nanosecond: time.nanosecond,
        offset_seconds,
    }
}

// The tests of `new`, in its order.
#[tactic(auto, unfolding(crate::specs::Extended::test_date), using(calendar::proofs::Counting::month_bounds))]
pub fn test_date(date: DateParts) -> Result<(), Refusal>
    ensures { outcome_of result ≡ test_date date }
{
    if date.year > GNU_MAX_YEAR {
        return Err(Refusal::Over);
    }
    if date.month < 1 {
        return Err(Refusal::Month);
    }
    if date.month > 12 {
        return Err(Refusal::Month);
    }
    if date.day < 1 {
        return Err(Refusal::Day);
    }
    // Every month has these days, so that most dates ask no table and no leap year.
    if date.day <= 28 {
        return Ok(());
    }
    if date.day > days_in_month(date.year, date.month) {
        return Err(Refusal::Day);
    }
    Ok(())
}

#[tactic(auto, unfolding(crate::specs::Extended::test_time))]
fn test_time(time: TimeParts) -> Result<(), Refusal>
    ensures { outcome_of result ≡ test_time time }
{
    if time.hour > 23 {
        return Err(Refusal::Hour);
    }
    if time.minute > 59 {
        return Err(Refusal::Minute);
    }
    if time.second > 59 {
        return Err(Refusal::Second);
    }
    if time.nanosecond > 999999999 {
        return Err(Refusal::Nanosecond);
    }
    Ok(())
}

#[tactic(auto, unfolding(crate::specs::Extended::test_offset))]
pub fn test_offset(offset_seconds: i32) -> Result<(), Refusal>
    ensures { outcome_of result ≡ test_offset offset_seconds }
{
    if offset_seconds < -86400 {
        return Err(Refusal::Offset);
    }
    if offset_seconds > 86400 {
        return Err(Refusal::Offset);
    }
    Ok(())
}

// The Rust's quirk: a year that no u32 can represent is refused as a year below 0 is.
#[tactic(auto, unfolding(crate::specs::Extended::test_year))]
pub fn test_year(year: u64) -> Result<(), Refusal>
    ensures { outcome_of result ≡ test_year year }
{
    if year > 4294967295 {
        return Err(Refusal::Under);
    }
    if year > u64::from(GNU_MAX_YEAR) {
        return Err(Refusal::Over);
    }
    Ok(())
}
