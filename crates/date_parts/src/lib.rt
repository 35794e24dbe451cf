// What the forms of calendar dates are made of, as in items/date.rs: a month and a day that exist, and a year that may be left out (year.rs).
// A date that no month has is no match. The forms are in `date_readers`, the definitions and laws in `dates`.

#![tactic(auto)]

pub mod year;

ghost use Rattle.std.specs.Prelude.{◌≡◌, ℕ, List};
ghost use Rattle.primitive.specs.Text.{lowered};
ghost use Rattle.primitive.specs.Answer.{answer_of, place_answer, matched, or_else};
ghost use Rattle.dates.specs.Date.{date_of, exists, with_year, without_year, unwritten, end_of_text, blank_or_end, ended, dated_behind, nothing, hyphen, comma, year_answer, written_at};

use dates::date::{Date, MonthDay};

// Whether that month of the year has the day.
#[tactic(auto, unfolding(dates::specs::Date::exists))]
pub fn exists(year: u32, month: u8, day: u8) -> bool
    ensures { result ≡ exists year month day }
{
    (1 <= day) & (day <= extended::days_in_month(year, month))
}

// The date with the year that digits write.
pub fn with_year(digits: &[u8], on: MonthDay, next: usize) -> Option<(Date, usize)>
    ensures { (text : List ℕ) → answer_of result ≡ with_year (lowered digits.now) on.month on.day text next }
{
    let year = year::year_from_str(digits)?;
    if !exists(year, on.month, on.day) {
        return None;
    }
    Some((dated_on(on, Some(year)), next))
}

// The date without a year: 29 February may be one.
#[tactic(auto, unfolding(dates::specs::Date::without_year))]
pub fn without_year(on: MonthDay, next: usize) -> Option<(Date, usize)>
    ensures { (text : List ℕ) → answer_of result ≡ without_year on.month on.day text next }
{
    if !exists(2000, on.month, on.day) {
        return None;
    }
    Some((dated_on(on, None), next))
}

fn dated_on(on: MonthDay, year: Option<u32>) -> Date
    ensures { result ≡ date_of year on.month on.day }
{
    Date {
        day: on.day,
        month: on.month,
        year,
    }
}

// A blank, or the end of the text.
#[tactic(auto, unfolding(dates::specs::Date::blank_or_end))]
fn blank_or_end(s: &[u8], at: usize) -> Option<usize>
    ensures { place_answer result ≡ blank_or_end (lowered s.now) at }
{
    let blanks = primitive::multispace1(s, at).map(|(_, next)| next);
    blanks.or_else(|| end_of_text(s, at))
}

#[tactic(auto, using(primitive::proofs::Lowered::length_lowered), unfolding(dates::specs::Date::end_of_text))]
fn end_of_text(s: &[u8], at: usize) -> Option<usize>
    ensures { place_answer result ≡ end_of_text (lowered s.now) at }
{
    if s.len() <= at { Some(at) } else { None }
}

// A year at `start`, with a blank or the end of the text after it. Where there is none, what was read from `at` to `start` is
// given back.
#[tactic(auto, unfolding(dates::specs::Date::ended))]
fn ended_year(s: &[u8], at: usize, start: usize) -> Option<(&[u8], usize)>
    ensures { year_answer at result ≡ or_else (ended (lowered s.now) start) (matched unwritten at) }
{
    let (digits, end) = year::year_str(s, start)?;
    let next = blank_or_end(s, end)?;
    Some((digits, next))
}

// The date with a year at `start`, or without one.
#[tactic(auto, unfolding(dates::specs::Date::written_at, dates::specs::Date::dated))]
fn dated(s: &[u8], at: usize, start: usize, on: MonthDay) -> Option<(Date, usize)>
    ensures { answer_of result ≡ written_at (or_else (ended (lowered s.now) start) (matched unwritten at)) on.month on.day (lowered s.now) }
{
    match ended_year(s, at, start) {
        Some((digits, next)) => with_year(digits, on, next),
        None => without_year(on, at),
    }
}

// The place after a hyphen, or the same place.
#[tactic(auto, unfolding(dates::specs::Date::hyphen))]
pub fn hyphen(s: &[u8], at: usize) -> usize
    ensures { matched tt result ≡ hyphen (lowered s.now) at }
{
    spaces::spaced_byte(s, at, b'-').unwrap_or(at)
}

// GNU quirk: a comma only with a blank after it, as in `Nov 14, 2022`.
#[tactic(auto, unfolding(dates::specs::Date::comma))]
fn comma(s: &[u8], at: usize) -> usize
    ensures { matched tt result ≡ comma (lowered s.now) at }
{
    let comma = spaces::spaced_byte(s, at, b',');
    comma
        .and_then(|next| primitive::multispace1(s, next))
        .map_or(at, |(_, next)| next)
}

// The date with the year that follows, or without one: at once, after a hyphen, after a comma. A public function each, one line over what they
// share.
#[tactic(auto, unfolding(dates::specs::Date::dated_behind, dates::specs::Date::ended_year, dates::specs::Date::nothing, dates::specs::Date::written_at))]
pub fn plain_dated(s: &[u8], at: usize, on: MonthDay) -> Option<(Date, usize)>
    ensures { answer_of result ≡ dated_behind nothing on.month on.day (lowered s.now) at }
{
    dated(s, at, at, on)
}

#[tactic(auto, unfolding(dates::specs::Date::dated_behind, dates::specs::Date::ended_year, dates::specs::Date::written_at))]
pub fn hyphen_dated(s: &[u8], at: usize, on: MonthDay) -> Option<(Date, usize)>
    ensures { answer_of result ≡ dated_behind hyphen on.month on.day (lowered s.now) at }
{
    dated(s, at, hyphen(s, at), on)
}

#[tactic(auto, unfolding(dates::specs::Date::dated_behind, dates::specs::Date::ended_year, dates::specs::Date::written_at))]
pub fn comma_dated(s: &[u8], at: usize, on: MonthDay) -> Option<(Date, usize)>
    ensures { answer_of result ≡ dated_behind comma on.month on.day (lowered s.now) at }
{
    dated(s, at, comma(s, at), on)
}
