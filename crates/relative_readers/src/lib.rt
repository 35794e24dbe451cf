// The readers of relative items, as in items/relative.rs: seconds (seconds.rs), or else a unit of time (unit.rs) after a number, an ordinal word
// or nothing, and then `ago`, `hence` or neither. The definitions and laws are in `relative`.
//
// - Weeks and fortnights are days. A number of days that no i32 can represent is no match.
// - The words `tomorrow`, `yesterday`, `today` and `now` are not read.

#![tactic(auto)]

pub mod seconds;
pub mod unit;

ghost use Rattle.std.specs.Prelude.{◌≡◌, ℕ, ◌<◌, ◌≤◌, ◌^◌, List, get_or, false, neg_ℤ, cond};
ghost use Rattle.std.specs.Int.Signed.{mag};
ghost use Rattle.primitive.specs.Answer.{answer_of, lossy_answer, matched, or_else};
ghost use Rattle.primitive.specs.Text.{lowered};
ghost use Rattle.primitive.specs.Primitive.{sign, space};
ghost use Rattle.relative.specs.Relative.{parse, displacement, displaced, in_unit, stripped};
ghost use Rattle.relative.specs.Fronts.{united, counted, unit_of_number};

use primitive::SecAndNsec;
use relative::Relative;
use unit::Unit;

// The most units that an i32 can represent.
const MOST_UNITS: u64 = 2147483647;

// A relative item. It begins with a word, or with a number that may have a sign.
#[tactic(auto, using(relative::proofs::Fronts::fronts))]
pub fn parse(s: &[u8], at: usize) -> Option<(Relative, usize, bool)>
    ensures { lossy_answer result ≡ parse (lowered s.now) at }
{
    let start = spaces::space(s, at);
    if s.len() <= start {
        return None;
    }
    if b'9' < s[start] {
        let (relative, next) = word_displacement(s, start)?;
        return Some((relative, next, false));
    }
    match primitive::sign(s, start) {
        Some((negative, next)) => number_displacement(s, start, next, negative),
        None => number_displacement(s, start, start, false),
    }
}

// A unit of time with an ordinal word in front of it, or alone. The first word is read once.
#[tactic(auto, using(relative::proofs::Fronts::fronts))]
fn word_displacement(s: &[u8], at: usize) -> Option<(Relative, usize)>
    requires { (at ≡ space (lowered s.now) at) × (57 < get_or s.now at 0) }
    ensures { answer_of result ≡ displacement (lowered s.now) at }
{
    let (word, end) = primitive::alpha1(s, at)?;
    match words::ordinal::ordinal_named(word) {
        Some(n) => displaced(s, end, n),
        None => united(s, end, word, 1),
    }
}

// Seconds or a unit of time after a number, whose sign was read from `at` to `start`. The number is read once, unless a fraction may follow.
#[tactic(auto, using(relative::proofs::Fronts::fronts))]
fn number_displacement(
    s: &[u8],
    at: usize,
    start: usize,
    negative: bool,
) -> Option<(Relative, usize, bool)>
    requires { (at ≡ space (lowered s.now) at) × (get_or s.now at 0 ≤ 57) × (matched negative start ≡ or_else (sign (lowered s.now) at) (matched false at)) }
    ensures { lossy_answer result ≡ parse (lowered s.now) at }
{
    let (n, end) = numbers::dec_u64(s, spaces::space(s, start))?;
    if epoch::point_or_comma(s, end).is_some() {
        return seconds_or_displacement(s, at);
    }
    let (relative, next) = unit_of_number(s, end, negative, n)?;
    Some((relative, next, false))
}

// The unit of a number without a fraction.
#[tactic(auto, using(relative::proofs::Chain::relatives), unfolding(relative::specs::Fronts::unit_of_number))]
fn unit_of_number(s: &[u8], at: usize, negative: bool, n: u64) -> Option<(Relative, usize)>
    ensures { answer_of result ≡ unit_of_number negative n (lowered s.now) at }
{
    let start = spaces::space(s, at);
    let (word, end) = primitive::alpha1(s, start)?;
    let (ago, next) = seconds::direction(s, end);
    counted(word, seconds::turned(ago, negative), n, next)
}

// Seconds that an i64 can represent, or a unit as many times as an i32 can represent.
#[tactic(auto, using(relative::proofs::Fronts::counts))]
fn counted(word: &[u8], negative: bool, n: u64, next: usize) -> Option<(Relative, usize)>
    ensures { (text : List ℕ) → answer_of result ≡ counted negative n (lowered word.now) text next }
{
    match seconds::second_named(word) {
        Some(()) => {
            if seconds::MOST_SECONDS < n {
                return None;
            }
            let v = SecAndNsec { sec: n, nsec: 0 };
            Some((seconds::rounded(negative, v), next))
        }
        None => {
            if MOST_UNITS < n {
                return None;
            }
            in_unit(word, numbers::with_sign(negative, n as u32) as i32, next)
        }
    }
}

// Seconds, or else a displacement, where a fraction may follow the number.
#[tactic(auto, unfolding(relative::specs::Relative::parse))]
fn seconds_or_displacement(s: &[u8], at: usize) -> Option<(Relative, usize, bool)>
    ensures { lossy_answer result ≡ parse (lowered s.now) at }
{
    seconds::seconds(s, at).or_else(|| {
        let (relative, next) = displacement(s, at)?;
        Some((relative, next, false))
    })
}

// A unit of time with an ordinal in front of it, or 1 where there is none. An ordinal that was read is kept.
#[tactic(auto, using(relative::proofs::Units::turned), unfolding(relative::specs::Relative::displacement))]
fn displacement(s: &[u8], at: usize) -> Option<(Relative, usize)>
    ensures { answer_of result ≡ displacement (lowered s.now) at }
{
    let (n, next) = words::ordinal::ordinal(s, at).unwrap_or((1, at));
    displaced(s, next, n)
}

// A unit of time, n times. Each ordinal can be negated.
#[tactic(auto, using(relative::proofs::Chain::relatives), unfolding(relative::specs::Relative::displaced, relative::specs::Fronts::united))]
fn displaced(s: &[u8], at: usize, n: i32) -> Option<(Relative, usize)>
    requires { mag (neg_ℤ n) < 2 ^ 31 }
    ensures { answer_of result ≡ displaced n (lowered s.now) at }
{
    let start = spaces::space(s, at);
    let (word, end) = primitive::alpha1(s, start)?;
    united(s, end, word, n)
}

// The unit that a word names, n times, and -n times before `ago`.
fn united(s: &[u8], at: usize, word: &[u8], n: i32) -> Option<(Relative, usize)>
    requires { mag (neg_ℤ n) < 2 ^ 31 }
    ensures { answer_of result ≡ united n (lowered word.now) (lowered s.now) at }
{
    let (ago, next) = seconds::direction(s, at);
    in_unit(word, multiplier(ago, n), next)
}

// n, or -n for `ago`.
fn multiplier(ago: bool, n: i32) -> i32
    requires { mag (neg_ℤ n) < 2 ^ 31 }
    ensures { result ≡ cond ago (neg_ℤ n) n }
{
    if ago { -n } else { n }
}

const UNITS: [(&str, Unit); 10] = [
    ("year", Unit::Year),
    ("month", Unit::Month),
    ("fortnight", Unit::Fortnight),
    ("week", Unit::Week),
    ("day", Unit::Day),
    ("hour", Unit::Hour),
    ("minute", Unit::Minute),
    ("min", Unit::Minute),
    ("second", Unit::Second),
    ("sec", Unit::Second),
];

// The unit that a word names, n times. One `s` after the unit is ignored.
fn in_unit(word: &[u8], n: i32, next: usize) -> Option<(Relative, usize)>
    ensures { (text : List ℕ) → answer_of result ≡ in_unit n (lowered word.now) text next }
{
    let unit = words::find_value(stem(word), &UNITS)?;
    let relative = unit.times(n)?;
    Some((relative, next))
}

// A word without an `s` at its end.
fn stem(word: &[u8]) -> &[u8]
    ensures { lowered result.now ≡ stripped (lowered word.now) }
{
    let Some((last, front)) = word.split_last() else {
        return word;
    };
    if primitive::to_lower(*last) == b's' {
        front
    } else {
        word
    }
}
