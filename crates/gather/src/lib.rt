// Items gathered one after the other, as in items/builder.rs: each is set under the rules, and the first broken rule stays. A pure number,
// which comes by packet only, is the year of a date that has none, or else a time. The definitions and laws are in `rules`.

#![tactic(auto)]

ghost use Rattle.std.specs.Prelude.{◌≡◌, ℕ, List, ◌+◌, ◌<◌, ◌≤◌, [], ◌++◌, length};
ghost use Rattle.std.proofs.Math.Seq.{slice};
ghost use Rattle.primitive.specs.Text.{lowered};
ghost use Rattle.answers.specs.Placed.{fine};
ghost use Rattle.answers.specs.Refusals.{code, outcome_of, placed_of, numbered_at};
ghost use Rattle.rules.specs.Rules.{empty, set_time, set_pure_year, set_pure_time, set_pure, set_item, rule_place, onward, add_item, relative_of, clock, set_hour, set_hour_and_minute};

use answers::{PlacedRefusal, Refusal};
use arrayvec::ArrayVec;
use dates::date::Date;
use items::{Item, Pure};
use relative::Relative;
use rules::{DateTimeBuilder, Zone};
use times::time::Time;

// What the items give so far: the builder that they make, or the first broken rule, and the relative ones, at most N.
#[derive(Drop)]
pub struct Gathered<const N: usize> {
    pub builder: Result<DateTimeBuilder, PlacedRefusal>,
    pub relatives: ArrayVec<Relative, N>,
}

impl<const N: usize> Gathered<N> {
    // No item yet.
    pub fn new() -> Gathered<N>
        ensures builder { placed_of result.builder ≡ fine empty }
        ensures relatives { result.relatives.items ≡ [] }
    {
        Gathered {
            builder: Ok(DateTimeBuilder::new()),
            relatives: ArrayVec::new(),
        }
    }

    // What the first items gave; their relative ones, if there is room for them.
    pub fn resume(
        builder: Result<DateTimeBuilder, PlacedRefusal>,
        first: &[Relative],
    ) -> Gathered<N>
        ensures builder { placed_of result.builder ≡ placed_of builder }
        ensures relatives { length first.now ≤ N → result.relatives.items ≡ first.now }
    {
        let mut relatives = ArrayVec::new();
        let _ = relatives.try_extend_from_slice(first);
        Gathered { builder, relatives }
    }

    // One item more, and its index. A relative item is kept after the others, if there is room for it. As a call, it takes some 20 instructions more
    // an item.
    #[inline(always)]
    #[tactic(auto, using(rules::proofs::Order::no_rule))]
    pub fn add_item(&mut self, digits: &[u8], item: Item, index: usize)
        ensures builder { placed_of self.new.builder ≡ add_item (lowered digits.now) index item (placed_of self.old.builder) }
        ensures kept { length self.old.relatives.items < N → self.new.relatives.items ≡ self.old.relatives.items ++ relative_of item }
        ensures full { N ≤ length self.old.relatives.items → self.new.relatives.items ≡ self.old.relatives.items }
        ensures few { length self.new.relatives.items ≤ length self.old.relatives.items + 1 }
    {
        // a relative item has no rule
        if let Item::Relative(relative) = item {
            if !self.relatives.is_full() {
                self.relatives.push(relative);
            }
            return;
        }
        add_ruled(&mut self.builder, digits, item, index);
    }
}

// One item more that has a rule. The rule of a time alone changes the builder in its place; the rules of all kinds copy it. If this were inlined,
// every text that is read at once would save registers for it.
#[inline(never)]
fn add_ruled(
    standing: &mut Result<DateTimeBuilder, PlacedRefusal>,
    digits: &[u8],
    item: Item,
    index: usize,
)
    ensures { placed_of standing.new ≡ add_item (lowered digits.now) index item (placed_of standing.old) }
{
    if let Item::Time(time) = item {
        *standing = timed(*standing, time, index);
        return;
    }
    *standing = under_rules(*standing, digits, item, index);
}

// A time more, under its rule.
#[tactic(auto, unfolding(rules::specs::Rules::add_item, rules::specs::Rules::set_item))]
fn timed(
    standing: Result<DateTimeBuilder, PlacedRefusal>,
    time: Time,
    index: usize,
) -> Result<DateTimeBuilder, PlacedRefusal>
    ensures { (digits : List ℕ) → placed_of result ≡ add_item digits index (Item.Time time) (placed_of standing) }
{
    let before = standing?;
    before
        .set_time(time)
        .map_err(|refusal| refusal.at(rule_place(refusal, index)))
}

// The rules of one item more. The first broken one stays.
#[tactic(auto, unfolding(rules::specs::Rules::add_item))]
fn under_rules(
    standing: Result<DateTimeBuilder, PlacedRefusal>,
    digits: &[u8],
    item: Item,
    index: usize,
) -> Result<DateTimeBuilder, PlacedRefusal>
    ensures { placed_of result ≡ add_item (lowered digits.now) index item (placed_of standing) }
{
    let builder = standing?;
    set_item(builder, digits, item).map_err(|refusal| refusal.at(rule_place(refusal, index)))
}

// The same where the first broken rule is given by its number and place, any number: they stay.
#[tactic(auto, unfolding(rules::specs::Rules::add_item))]
pub fn heed(
    standing: Result<DateTimeBuilder, (u32, usize)>,
    digits: &[u8],
    item: Item,
    index: usize,
) -> Result<DateTimeBuilder, (u32, usize)>
    ensures { numbered_at result ≡ add_item (lowered digits.now) index item (numbered_at standing) }
{
    match standing {
        Ok(builder) => under_rules(Ok(builder), digits, item, index).map_err(|broken| (
            u32::from(broken.refusal),
            broken.place,
        )),
        Err(broken) => Err(broken),
    }
}

// The place of a broken rule: the item's index, and 0 for a year that a pure number gives.
#[tactic(auto, unfolding(rules::specs::Rules::rule_place))]
fn rule_place(refusal: Refusal, index: usize) -> usize
    ensures { result ≡ rule_place (code refusal) index }
{
    match refusal {
        Refusal::Over => 0,
        _ => index,
    }
}

// One item more under its rule. A relative item has none.
#[tactic(auto, unfolding(rules::specs::Rules::set_item))]
fn set_item(builder: DateTimeBuilder, digits: &[u8], item: Item) -> Result<DateTimeBuilder, Refusal>
    ensures { outcome_of result ≡ set_item (lowered digits.now) builder item }
{
    match item {
        Item::DateTime(both) => builder.set_date_time(both),
        Item::Date(date) => builder.set_date(date),
        Item::Time(time) => builder.set_time(time),
        Item::Weekday(weekday) => builder.set_weekday(weekday),
        Item::Relative(_) => Ok(builder),
        Item::Offset(offset) => builder.set_zone(Some(Zone::Offset(offset))),
        Item::LocalZone => builder.set_zone(Some(Zone::Local)),
        Item::Pure(pure) => set_pure(builder, digits, pure),
    }
}

// A pure number is the year of a date that has none, or else a time. Its digits are in `digits`.
#[tactic(auto, unfolding(rules::specs::Rules::set_pure))]
fn set_pure(builder: DateTimeBuilder, digits: &[u8], pure: Pure) -> Result<DateTimeBuilder, Refusal>
    ensures { outcome_of result ≡ set_pure (lowered digits.now) builder pure }
{
    match builder.date {
        Some(date) if date.year.is_none() => {
            let from = usize::from(pure.start);
            let to = from + usize::from(pure.length);
            set_pure_year(builder, primitive::part(digits, from, to), date)
        }
        _ => set_pure_time(builder, digits, pure),
    }
}

#[tactic(auto, unfolding(rules::specs::Rules::set_pure_year))]
fn set_pure_year(
    builder: DateTimeBuilder,
    year: &[u8],
    date: Date,
) -> Result<DateTimeBuilder, Refusal>
    ensures { (digits : List ℕ) (from to : ℕ) → lowered year.now ≡ slice from to digits → outcome_of result ≡ set_pure_year digits builder date from to }
{
    let year = date_parts::year::year_from_str(year).ok_or(Refusal::Over)?;
    let date = Date {
        year: Some(year),
        ..date
    };
    Ok(DateTimeBuilder {
        date: Some(date),
        ..builder
    })
}

#[tactic(auto, unfolding(rules::specs::Rules::set_pure_time))]
fn set_pure_time(
    builder: DateTimeBuilder,
    digits: &[u8],
    pure: Pure,
) -> Result<DateTimeBuilder, Refusal>
    ensures { outcome_of result ≡ set_pure_time (lowered digits.now) builder pure }
{
    if pure.length < 1 {
        return Err(Refusal::Pure);
    }
    if pure.length > 4 {
        return Err(Refusal::Pure);
    }
    let from = usize::from(pure.start);
    let to = from + usize::from(pure.length);
    if pure.length <= 2 {
        return set_hour(builder, primitive::part(digits, from, to));
    }
    let hour = primitive::part(digits, from, to - 2);
    let minute = primitive::part(digits, to - 2, to);
    set_hour_and_minute(builder, hour, minute)
}

#[tactic(auto, unfolding(rules::specs::Rules::set_hour))]
fn set_hour(builder: DateTimeBuilder, hour: &[u8]) -> Result<DateTimeBuilder, Refusal>
    ensures { (digits : List ℕ) (from to : ℕ) → lowered hour.now ≡ slice from to digits → outcome_of result ≡ set_hour digits builder from to }
{
    let hour = numbers::parse_u8(hour, 23).ok_or(Refusal::Pure)?;
    set_clock(builder, hour, 0)
}

#[tactic(auto, unfolding(rules::specs::Rules::set_hour_and_minute))]
fn set_hour_and_minute(
    builder: DateTimeBuilder,
    hour: &[u8],
    minute: &[u8],
) -> Result<DateTimeBuilder, Refusal>
    ensures { (digits : List ℕ) (from middle to : ℕ) → lowered hour.now ≡ slice from middle digits → lowered minute.now ≡ slice middle to digits → outcome_of result ≡ set_hour_and_minute digits builder from middle to }
{
    let hour = numbers::parse_u8(hour, 23).ok_or(Refusal::Pure)?;
    let minute = numbers::parse_u8(minute, 59).ok_or(Refusal::Pure)?;
    set_clock(builder, hour, minute)
}

fn set_clock(builder: DateTimeBuilder, hour: u8, minute: u8) -> Result<DateTimeBuilder, Refusal>
    ensures { outcome_of result ≡ set_time builder (clock hour minute) }
{
    builder.set_time(Time {
        hour,
        minute,
        second: 0,
        nanosecond: 0,
        offset: None,
    })
}
