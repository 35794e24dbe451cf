// The time that follows an ISO date in one item, as in items/combined.rs.

ghost use Rattle.std.specs.Prelude.{◌≡◌};
ghost use Rattle.primitive.specs.Text.{lowered};
ghost use Rattle.primitive.specs.Answer.{place_answer, lossy_answer, lossy_stop_answer};
ghost use Rattle.items.specs.Combined.{attempt, separator, meridiem_word, starts_with_meridiem, iso_alone, combined_time, parse_time_after_date};

use dates::date::Date;
use items::combined::DateTime;
use primitive::Miss;
use times::time::Time;

// The separator and the time of an item whose ISO date has been read.
#[tactic(auto, using(items::proofs::Chain::items), unfolding(items::specs::Combined::parse_time_after_date))]
pub fn parse_time_after_date(
    s: &[u8],
    at: usize,
    date: Date,
) -> Result<(DateTime, usize, bool), Miss>
    ensures { lossy_stop_answer result ≡ parse_time_after_date date (lowered s.now) at }
{
    let at = separator(s, at).ok_or(Miss::NoMatch)?;
    let (time, next, dropped) = combined_time(s, at)?;
    Ok((DateTime { date, time }, next, dropped))
}

// A `t` after space, or a blank and the space after it.
#[tactic(auto, using(items::proofs::Chain::items), unfolding(items::specs::Combined::separator))]
fn separator(s: &[u8], at: usize) -> Option<usize>
    ensures { place_answer result ≡ separator (lowered s.now) at }
{
    if let Some(next) = spaces::spaced_byte(s, at, b't') {
        return Some(next);
    }
    let next = primitive::byte(s, at, b' ')?;
    Some(spaces::space(s, next))
}

// An ISO time that no am or pm follows, or else any time.
#[tactic(auto, using(items::proofs::Chain::items), unfolding(items::specs::Combined::combined_time))]
fn combined_time(s: &[u8], at: usize) -> Result<(Time, usize, bool), Miss>
    ensures { lossy_stop_answer result ≡ combined_time (lowered s.now) at }
{
    match iso_alone(s, at) {
        Some(read) => Ok(read),
        None => time_readers::parse(s, at),
    }
}

// An ISO time that no am or pm follows; one that stops is no match.
#[tactic(auto, using(items::proofs::Chain::items), unfolding(items::specs::Combined::iso_alone, items::specs::Combined::unless_meridiem))]
fn iso_alone(s: &[u8], at: usize) -> Option<(Time, usize, bool)>
    ensures { lossy_answer result ≡ attempt iso_alone (lowered s.now) at }
{
    let (time, next, dropped) = time_readers::iso(s, at).ok()?;
    if starts_with_meridiem(s, next).is_some() {
        return None;
    }
    Some((time, next, dropped))
}

// am or pm after blanks.
fn starts_with_meridiem(s: &[u8], at: usize) -> Option<usize>
    ensures { place_answer result ≡ starts_with_meridiem (lowered s.now) at }
{
    meridiem_word(s, primitive::multispace0(s, at))
}

#[tactic(auto, using(items::proofs::Chain::items), unfolding(items::specs::Combined::meridiem_word, primitive::specs::Text::bytes))]
fn meridiem_word(s: &[u8], at: usize) -> Option<usize>
    ensures { place_answer result ≡ meridiem_word (lowered s.now) at }
{
    primitive::tag(s, at, b"am")
        .or_else(|| primitive::tag(s, at, b"pm"))
        .or_else(|| primitive::tag(s, at, b"a.m."))
        .or_else(|| primitive::tag(s, at, b"p.m."))
}
