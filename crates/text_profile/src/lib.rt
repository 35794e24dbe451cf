// The interchange profile of ISO 8601: a text that is a plain date, `YYYY-MM-DD`, or a week date, `YYYY-Www-D`, and nothing else. Midnight and the
// offset of the base complete the record. `text_reader` reads all other texts.

#![tactic(auto)]

ghost use Rattle.std.specs.Prelude.{ℕ, ◌≡◌, ◌+◌, ◌<◌, true, length, get_or};
ghost use Rattle.answers.specs.Refusals.{outcome_of, placed_of};
ghost use Rattle.primitive.specs.Text.{digit};
ghost use Rattle.text_profile.specs.Forms.{Digit, formed, number, fits, form, plain_date, week_day, date_in};
ghost use Rattle.text_profile.specs.Profile.{read_profile};

use answers::{PlacedRefusal, Refusal};
use extended::{DateParts, ExtendedDateTime, TimeParts};
use weeks::WeekDate;

// The record of a text under a base, after the tests that every text has to pass.
#[tactic(auto, unfolding(crate::specs::Profile::read_profile))]
pub fn read_profile(text: &[u8], base: ExtendedDateTime) -> Result<ExtendedDateTime, PlacedRefusal>
    ensures { placed_of result ≡ read_profile text.now base }
{
    text_tests::test_text(text, base)?;
    let date = date_in(text)?;
    let midnight = TimeParts {
        hour: 0,
        minute: 0,
        second: 0,
        nanosecond: 0,
    };
    Ok(extended::from_parts(date, midnight, base.offset_seconds))
}

// The date that a text is, in one of the two forms.
#[tactic(auto, unfolding(crate::specs::Forms::date_in))]
fn date_in(text: &[u8]) -> Result<DateParts, Refusal>
    ensures { outcome_of result ≡ date_in text.now }
{
    let Some(form) = read_form(text) else {
        return Err(Refusal::Unread);
    };
    match form {
        Form::Plain(date) => plain_date(date),
        Form::Week(date) => week_day(date),
    }
}

// The two forms, with the numbers that a text has there, whether or not there is such a date.
#[derive(Clone, Copy)]
pub enum Form {
    Plain(DateParts),
    Week(WeekDate),
}

// A `0` is any digit, any other byte itself.
const PLAIN: &[u8] = b"0000-00-00";

const WEEK: &[u8] = b"0000-W00-0";

// The form of a text, if it has one of the two.
fn read_form(text: &[u8]) -> Option<Form>
    ensures { result ≡ form text.now }
{
    if formed(PLAIN, text) {
        let year = four(text, 0);
        let month = two(text, 5);
        let day = two(text, 8);
        return Some(Form::Plain(DateParts { year, month, day }));
    }
    if formed(WEEK, text) {
        let year = four(text, 0);
        let week = two(text, 6);
        let day = one(text, 9);
        return Some(Form::Week(WeekDate { year, week, day }));
    }
    None
}

// Whether each byte of a text is what a pattern has there. Inlined, so that the pattern's bytes are known to the compiler.
#[inline(always)]
#[tactic(auto, using(crate::proofs::Forms::forms))]
fn formed(pattern: &[u8], text: &[u8]) -> bool
    ensures { result ≡ formed pattern.now text.now }
{
    if text.len() != pattern.len() {
        return false;
    }
    for i in 0..pattern.len() {
        if !fits(pattern[i], text[i]) {
            return false;
        }
    }
    true
}

// Whether a byte is what a pattern has: a digit for a `0`, else the same byte.
#[tactic(auto, unfolding(crate::specs::Forms::fits))]
fn fits(wanted: u8, byte: u8) -> bool
    ensures { result ≡ fits wanted byte }
{
    if wanted == b'0' {
        primitive::is_digit(byte)
    } else {
        byte == wanted
    }
}

// The number of four digits.
fn four(text: &[u8], at: usize) -> u32
    requires { (Digit text.now at) × (Digit text.now (at + 1)) × (Digit text.now (at + 2)) × (Digit text.now (at + 3)) }
    ensures { result ≡ number text.now at 4 }
{
    two(text, at) as u32 * 100 + two(text, at + 2) as u32
}

// The number of two digits.
fn two(text: &[u8], at: usize) -> u8
    requires { (Digit text.now at) × (Digit text.now (at + 1)) }
    ensures { (result ≡ number text.now at 2) × (result < 100) }
{
    one(text, at) * 10 + one(text, at + 1)
}

// The number of one digit.
fn one(text: &[u8], at: usize) -> u8
    requires { Digit text.now at }
    ensures { (result ≡ number text.now at 1) × (result < 10) }
{
    text[at] - b'0'
}

// A plain date, if there is such a date.
#[tactic(auto, unfolding(crate::specs::Forms::plain_date))]
fn plain_date(date: DateParts) -> Result<DateParts, Refusal>
    ensures { outcome_of result ≡ plain_date date }
{
    extended::test_date(date)?;
    Ok(date)
}

// The day of a week date, if its year has that week. It is nearly always a day of this year.
#[tactic(auto, unfolding(crate::specs::Forms::week_day))]
fn week_day(date: WeekDate) -> Result<DateParts, Refusal>
    requires { date.year < 10000 }
    ensures { outcome_of result ≡ week_day date }
{
    let Some(day) = weeks::day_of(date) else {
        return Err(Refusal::Week);
    };
    let civil = calendar::civil_from_days_near(day, date.year);
    Ok(DateParts {
        year: civil.year as u32,
        month: civil.month,
        day: civil.day,
    })
}
