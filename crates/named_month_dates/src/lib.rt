// Calendar dates with a month's name, as in items/date.rs. Section 29.2 of the manual: `14 November 2022`, `14nov2022`, `Nov 14, 2022`. A crate
// apart from `date_readers` for the gate's time alone. The definitions and laws are in `dates`.

#![tactic(auto)]

ghost use Rattle.std.specs.Prelude.{◌≡◌};
ghost use Rattle.primitive.specs.Text.{lowered};
ghost use Rattle.primitive.specs.Answer.{answer_of, or_else};
ghost use Rattle.dates.specs.Date.{literal1, literal2, literal3, literal};
ghost use Rattle.named_month_dates.specs.Days.{spaced_day, hyphened_day};

use dates::date::{Date, MonthDay};

#[tactic(auto, unfolding(dates::specs::Date::literal))]
pub fn literal(s: &[u8], at: usize) -> Option<(Date, usize)>
    ensures { answer_of result ≡ literal (lowered s.now) at }
{
    literal1(s, at).or_else(|| month_first(s, at))
}

// `14 November 2022`, `14 Nov 2022`, `14nov2022`, `14-nov-2022`, `14-nov2022`, `14nov-2022`, `14 Nov`.
#[tactic(auto, unfolding(dates::specs::Date::literal1))]
pub fn literal1(s: &[u8], at: usize) -> Option<(Date, usize)>
    ensures { answer_of result ≡ literal1 (lowered s.now) at }
{
    let (day, at) = numbers::spaced_u8(s, at)?;
    let (month, at) = month_names::spaced_month(s, date_parts::hyphen(s, at))?;
    date_parts::hyphen_dated(s, at, MonthDay { month, day })
}

// A date that begins with the name of a month, which is read once.
#[tactic(auto, using(primitive::proofs::Shared::shared_chain), unfolding(dates::specs::Date::literal2, dates::specs::Date::literal3))]
pub fn month_first(s: &[u8], at: usize) -> Option<(Date, usize)>
    ensures { answer_of result ≡ or_else (literal2 (lowered s.now) at) (literal3 (lowered s.now) at) }
{
    let (month, at) = month_names::spaced_month(s, at)?;
    spaced_day(s, at, month).or_else(|| hyphened_day(s, at, month))
}

// The day after the month: `November 14, 2022`, `Nov 14, 2022`, `Nov 14 2022`, `Nov 14`.
fn spaced_day(s: &[u8], at: usize, month: u8) -> Option<(Date, usize)>
    ensures { answer_of result ≡ spaced_day month (lowered s.now) at }
{
    let (day, at) = numbers::spaced_u8(s, at)?;
    date_parts::comma_dated(s, at, MonthDay { month, day })
}

// The day between hyphens: `November-14-2022` and `Nov-14-2022`. Unlike in `spaced_day` the year is always there.
fn hyphened_day(s: &[u8], at: usize, month: u8) -> Option<(Date, usize)>
    ensures { answer_of result ≡ hyphened_day month (lowered s.now) at }
{
    let at = spaces::spaced_byte(s, at, b'-')?;
    let (day, at) = numbers::spaced_u8(s, at)?;
    let at = spaces::spaced_byte(s, at, b'-')?;
    let (year, at) = date_parts::year::year_str(s, at)?;
    date_parts::with_year(year, MonthDay { month, day }, at)
}
