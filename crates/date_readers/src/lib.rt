// The readers of calendar dates, a form each, as in items/date.rs. Section 29.2 of the manual: `2022-11-14`, `11/14/2022`; beside them
// `20221114` and `14.11.2022`. Those with a month's name are in `named_month_dates`, the definitions and laws in `dates`.

#![tactic(auto)]

ghost use Rattle.std.specs.Prelude.{◌≡◌};
ghost use Rattle.primitive.specs.Text.{lowered};
ghost use Rattle.primitive.specs.Answer.{answer_of};
ghost use Rattle.dates.specs.Date.{dotted, iso1, iso2, slash_part, us_rest, us, parse_non_iso, year_answer};

use dates::date::{Date, MonthDay};

// A date without marks has more than four digits.
const FEWEST_DIGITS: usize = 5;

// So many digits make the first number the year.
const YEAR_DIGITS: usize = 4;

// `2022-11-14`; the combined item begins with it too.
#[tactic(auto, unfolding(dates::specs::Date::iso1))]
pub fn iso1(s: &[u8], at: usize) -> Option<(Date, usize)>
    ensures { answer_of result ≡ iso1 (lowered s.now) at }
{
    let (year, at) = date_parts::year::year_str(s, at)?;
    let at = spaces::spaced_hyphen(s, at)?;
    let (month, at) = numbers::spaced_u8(s, at)?;
    let at = spaces::spaced_hyphen(s, at)?;
    let (day, at) = numbers::spaced_u8(s, at)?;
    date_parts::with_year(year, MonthDay { month, day }, at)
}

// `20221114`; the combined item begins with it too. No space is skipped in front.
pub fn iso2(s: &[u8], at: usize) -> Option<(Date, usize)>
    ensures { answer_of result ≡ iso2 (lowered s.now) at }
{
    let (digits, end) = primitive::dec_uint_str(s, at)?;
    let n = digits.len();
    if n < FEWEST_DIGITS {
        return None;
    }
    let month = numbers::parse_u8(&digits[n - 4..n - 2], 255)?;
    let day = numbers::parse_u8(&digits[n - 2..], 255)?;
    date_parts::with_year(&digits[..n - 4], MonthDay { month, day }, end)
}

// A date that is not in ISO format; `iso1` and `iso2` are tried before.
#[tactic(auto, unfolding(dates::specs::Date::parse_non_iso))]
pub fn parse_non_iso(s: &[u8], at: usize) -> Option<(Date, usize)>
    ensures { answer_of result ≡ parse_non_iso (lowered s.now) at }
{
    dotted(s, at)
        .or_else(|| us(s, at))
        .or_else(|| named_month_dates::literal(s, at))
}

// The European `14.11.2022`, or `14.11.` without a year.
#[tactic(auto, unfolding(dates::specs::Date::dotted))]
fn dotted(s: &[u8], at: usize) -> Option<(Date, usize)>
    ensures { answer_of result ≡ dotted (lowered s.now) at }
{
    let (day, at) = numbers::spaced_u8(s, at)?;
    let at = spaces::spaced_byte(s, at, b'.')?;
    let (month, at) = numbers::spaced_u8(s, at)?;
    let at = spaces::spaced_byte(s, at, b'.')?;
    date_parts::plain_dated(s, at, MonthDay { month, day })
}

// `2022/11/14`, `11/14/2022` or `11/14`.
#[tactic(auto, unfolding(dates::specs::Date::us))]
fn us(s: &[u8], at: usize) -> Option<(Date, usize)>
    ensures { answer_of result ≡ us (lowered s.now) at }
{
    let (first, at) = date_parts::year::year_str(s, at)?;
    let at = spaces::spaced_byte(s, at, b'/')?;
    let (number, at) = numbers::spaced_u8(s, at)?;
    us_rest(s, at, first, number)
}

// GNU quirk: the first part is the year if it has 4 digits or more and there is a third part.
#[tactic(auto, unfolding(dates::specs::Date::us_rest, dates::specs::Date::us_date))]
fn us_rest(s: &[u8], at: usize, first: &[u8], number: u8) -> Option<(Date, usize)>
    ensures { answer_of result ≡ us_rest (lowered first.now) number (lowered s.now) at }
{
    let Some((last, next)) = slash_part(s, at) else {
        let month = numbers::parse_u8(first, 255)?;
        return date_parts::without_year(MonthDay { month, day: number }, at);
    };
    if first.len() >= YEAR_DIGITS {
        let day = numbers::parse_u8(last, 255)?;
        return date_parts::with_year(first, MonthDay { month: number, day }, next);
    }
    let month = numbers::parse_u8(first, 255)?;
    date_parts::with_year(last, MonthDay { month, day: number }, next)
}

// The digits after the second slash, where there is one.
#[tactic(auto, unfolding(dates::specs::Date::slash_part))]
fn slash_part(s: &[u8], at: usize) -> Option<(&[u8], usize)>
    ensures { year_answer at result ≡ slash_part (lowered s.now) at }
{
    let start = spaces::spaced_byte(s, at, b'/')?;
    date_parts::year::year_str(s, start)
}
