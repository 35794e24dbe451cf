// The reader of an item of a text, as in items/mod.rs: a date with a time (combined.rs), a date, a time or a relative item. The definitions and
// laws are in `items`.

#![tactic(auto)]

mod combined;

ghost use Rattle.std.specs.Prelude.{◌≡◌, ◌<◌, ◌≤◌, length, get_or};
ghost use Rattle.primitive.specs.Text.{lowered, digit, past};
ghost use Rattle.primitive.specs.Primitive.{space};
ghost use Rattle.primitive.specs.Answer.{answer_of, lossy_answer, lossy_stop_answer};
ghost use Rattle.items.specs.Items.{dated_item, iso_date, relative_item, time_or_relative, other_item, parse_item};
ghost use Rattle.items.specs.Fronts.{word_item, day_or_time, day_or_relative, unhyphened_item};

use dates::date::Date;
use items::Item;
use primitive::Miss;

// A date without marks has more digits.
const FEW_DIGITS: usize = 4;

// The item at a place. The first byte after the space says what it can be: below `0` it begins no date and no time, and above `9` only a
// date whose month comes first.
#[tactic(auto, using(items::proofs::Fronts::fronts))]
pub fn parse_item(s: &[u8], at: usize) -> Result<(Item, usize, bool), Miss>
    ensures { lossy_stop_answer result ≡ parse_item (lowered s.now) at }
{
    let start = spaces::space(s, at);
    if s.len() <= start {
        return relative_item(s, start).ok_or(Miss::NoMatch);
    }
    if s[start] < b'0' {
        return relative_item(s, start).ok_or(Miss::NoMatch);
    }
    if b'9' < s[start] {
        return word_item(s, start);
    }
    number_item(s, at, start)
}

// The same where it may begin with a number, by the byte that follows: after at most four digits a colon makes it a time, and a letter
// leaves a day before a month's name, an hour before am or pm, and a relative item.
#[tactic(auto, using(items::proofs::Fronts::followers))]
fn number_item(s: &[u8], at: usize, start: usize) -> Result<(Item, usize, bool), Miss>
    requires { (start ≡ space (lowered s.now) at) × (start < length s.now) × (get_or s.now start 0 ≤ 57) }
    ensures { lossy_stop_answer result ≡ parse_item (lowered s.now) at }
{
    let end = primitive::digits(s, start);
    let next = spaces::space(s, end);
    if start + FEW_DIGITS < end {
        return long_number_item(s, at, start, end, next);
    }
    if s.len() <= next {
        return any_item(s, at);
    }
    if s[next] <= b'9' {
        return any_item(s, at);
    }
    if s[next] == b':' {
        return time_or_relative(s, start);
    }
    match primitive::to_lower(s[next]) {
        b'a' => day_or_time(s, start),
        b'p' => day_or_time(s, start),
        _ => day_or_relative(s, start),
    }
}

// The same where the number may be a date without marks. Without a hyphen after it, it begins no `2022-11-14`.
#[tactic(auto, using(items::proofs::Fronts::hyphens))]
fn long_number_item(
    s: &[u8],
    at: usize,
    start: usize,
    end: usize,
    next: usize,
) -> Result<(Item, usize, bool), Miss>
    requires { (start ≡ space (lowered s.now) at) × (end ≡ past digit (lowered s.now) start) × (next ≡ space (lowered s.now) end) }
    ensures { lossy_stop_answer result ≡ parse_item (lowered s.now) at }
{
    if s.len() <= next {
        return unhyphened_item(s, at);
    }
    if s[next] == b'-' {
        return any_item(s, at);
    }
    unhyphened_item(s, at)
}

// A date without marks, with a time or alone, or another item.
#[tactic(auto, using(items::proofs::Fronts::dates))]
fn unhyphened_item(s: &[u8], at: usize) -> Result<(Item, usize, bool), Miss>
    ensures { lossy_stop_answer result ≡ unhyphened_item (lowered s.now) at }
{
    match date_readers::iso2(s, at) {
        Some((date, next)) => dated_item(s, next, date),
        None => other_item(s, at),
    }
}

// An ISO date, with a time or alone, or another item. The date is read once.
#[tactic(auto, using(items::proofs::Fronts::dates))]
fn any_item(s: &[u8], at: usize) -> Result<(Item, usize, bool), Miss>
    ensures { lossy_stop_answer result ≡ parse_item (lowered s.now) at }
{
    match iso_date(s, at) {
        Some((date, next)) => dated_item(s, next, date),
        None => other_item(s, at),
    }
}

// A date whose month comes first, or a relative item.
#[tactic(auto, unfolding(items::specs::Fronts::word_item, items::specs::Fronts::month_item))]
fn word_item(s: &[u8], at: usize) -> Result<(Item, usize, bool), Miss>
    ensures { lossy_stop_answer result ≡ word_item (lowered s.now) at }
{
    match named_month_dates::month_first(s, at) {
        Some((date, next)) => Ok((Item::Date(date), next, false)),
        None => relative_item(s, at).ok_or(Miss::NoMatch),
    }
}

// A date whose day comes first, or else a time or a relative item.
#[tactic(auto, unfolding(items::specs::Fronts::day_or_time, items::specs::Fronts::day_item))]
fn day_or_time(s: &[u8], at: usize) -> Result<(Item, usize, bool), Miss>
    ensures { lossy_stop_answer result ≡ day_or_time (lowered s.now) at }
{
    match named_month_dates::literal1(s, at) {
        Some((date, next)) => Ok((Item::Date(date), next, false)),
        None => time_or_relative(s, at),
    }
}

// A date whose day comes first, or else a relative item.
#[tactic(auto, unfolding(items::specs::Fronts::day_or_relative, items::specs::Fronts::day_item))]
fn day_or_relative(s: &[u8], at: usize) -> Result<(Item, usize, bool), Miss>
    ensures { lossy_stop_answer result ≡ day_or_relative (lowered s.now) at }
{
    match named_month_dates::literal1(s, at) {
        Some((date, next)) => Ok((Item::Date(date), next, false)),
        None => relative_item(s, at).ok_or(Miss::NoMatch),
    }
}

#[tactic(auto, unfolding(items::specs::Items::iso_date))]
fn iso_date(s: &[u8], at: usize) -> Option<(Date, usize)>
    ensures { answer_of result ≡ iso_date (lowered s.now) at }
{
    date_readers::iso1(s, at).or_else(|| date_readers::iso2(s, at))
}

// A date with the time that follows it, or alone.
#[tactic(auto, unfolding(items::specs::Items::dated_item, items::specs::Items::date_time_item))]
fn dated_item(s: &[u8], at: usize, date: Date) -> Result<(Item, usize, bool), Miss>
    ensures { lossy_stop_answer result ≡ dated_item date (lowered s.now) at }
{
    match combined::parse_time_after_date(s, at, date) {
        Ok((both, next, dropped)) => Ok((Item::DateTime(both), next, dropped)),
        Err(Miss::NoMatch) => Ok((Item::Date(date), at, false)),
        Err(Miss::Stop) => Err(Miss::Stop),
    }
}

#[tactic(auto, unfolding(items::specs::Items::other_item, items::specs::Items::date_item))]
fn other_item(s: &[u8], at: usize) -> Result<(Item, usize, bool), Miss>
    ensures { lossy_stop_answer result ≡ other_item (lowered s.now) at }
{
    match date_readers::parse_non_iso(s, at) {
        Some((date, next)) => Ok((Item::Date(date), next, false)),
        None => time_or_relative(s, at),
    }
}

#[tactic(auto, unfolding(items::specs::Items::time_or_relative, items::specs::Items::time_item))]
fn time_or_relative(s: &[u8], at: usize) -> Result<(Item, usize, bool), Miss>
    ensures { lossy_stop_answer result ≡ time_or_relative (lowered s.now) at }
{
    match time_readers::parse(s, at) {
        Ok((time, next, dropped)) => Ok((Item::Time(time), next, dropped)),
        Err(Miss::NoMatch) => relative_item(s, at).ok_or(Miss::NoMatch),
        Err(miss) => Err(miss),
    }
}

#[tactic(auto, unfolding(items::specs::Items::relative_item))]
fn relative_item(s: &[u8], at: usize) -> Option<(Item, usize, bool)>
    ensures { lossy_answer result ≡ relative_item (lowered s.now) at }
{
    let (relative, next, dropped) = relative_readers::parse(s, at)?;
    Some((Item::Relative(relative), next, dropped))
}
