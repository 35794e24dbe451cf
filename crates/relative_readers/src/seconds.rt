// Seconds, and `ago` or `hence`, which may follow each relative item, as in items/relative.rs.
//
// Seconds may have a fraction. With a minus they are rounded toward minus infinity, so that the nanoseconds are never below 0. The reader also
// returns whether the fraction lost a digit.

ghost use Rattle.std.specs.Prelude.{◌≡◌, ◌<◌, ◌^◌, ℕ, List, not, cond};
ghost use Rattle.primitive.specs.Answer.{matched, found_at, place_answer, lossy_answer};
ghost use Rattle.primitive.specs.Text.{lowered};
ghost use Rattle.primitive.specs.Primitive.{named};
ghost use Rattle.relative.specs.Relative.{seconds, signed_seconds, second_words, second_word, rounded, direction};

use primitive::SecAndNsec;
use relative::Relative;

// The largest i64.
pub(crate) const MOST_SECONDS: u64 = 9223372036854775807;

// Seconds in digits, with a sign or without one.
#[tactic(auto, unfolding(relative::specs::Relative::seconds))]
pub fn seconds(s: &[u8], at: usize) -> Option<(Relative, usize, bool)>
    ensures { lossy_answer result ≡ seconds (lowered s.now) at }
{
    let (negative, next) = spaces::plus_or_minus(s, at).unwrap_or((false, at));
    signed_seconds(s, next, negative)
}

// The same after its sign. Seconds that no i64 can represent are no match.
#[tactic(auto, using(relative::proofs::Units::turned), unfolding(relative::specs::Relative::signed_seconds))]
fn signed_seconds(s: &[u8], at: usize, negative: bool) -> Option<(Relative, usize, bool)>
    ensures { lossy_answer result ≡ signed_seconds negative (lowered s.now) at }
{
    let (v, at, dropped) = epoch::sec_and_nsec(s, spaces::space(s, at))?;
    let at = second_word(s, at)?;
    let (ago, at) = direction(s, at);
    if MOST_SECONDS < v.sec {
        return None;
    }
    Some((rounded(turned(ago, negative), v), at, dropped))
}

const SECOND_WORDS: [(&str, ()); 4] = [("seconds", ()), ("second", ()), ("sec", ()), ("secs", ())];

// A word for seconds, after space.
#[tactic(auto, using(relative::proofs::Chain::relatives), unfolding(relative::specs::Relative::second_word))]
fn second_word(s: &[u8], at: usize) -> Option<usize>
    ensures { place_answer result ≡ second_word (lowered s.now) at }
{
    let start = spaces::space(s, at);
    let (word, end) = primitive::alpha1(s, start)?;
    second_named(word)?;
    Some(end)
}

// Whether a word is one for seconds.
pub(crate) fn second_named(word: &[u8]) -> Option<()>
    ensures { (text : List ℕ) (at : ℕ) → found_at at result ≡ named second_words (lowered word.now) text at }
{
    words::find_value(word, &SECOND_WORDS)
}

// Whether the sign is a minus after `ago` has negated it.
pub(crate) fn turned(ago: bool, negative: bool) -> bool
    ensures { result ≡ cond ago (not negative) negative }
{
    if ago { !negative } else { negative }
}

// Seconds and nanoseconds with a sign. Rounds toward minus infinity: -1.5 s is -2 s plus 500000000 ns.
pub(crate) fn rounded(negative: bool, v: SecAndNsec<u64>) -> Relative
    requires { (v.sec < 2 ^ 63) × (v.nsec < 1000000000) }
    ensures { result ≡ rounded negative v }
{
    let sec = v.sec as i64;
    let nsec = v.nsec;
    if negative {
        if nsec == 0 {
            return Relative::Seconds(-sec, 0);
        }
        return Relative::Seconds(-1 - sec, 1000000000 - nsec);
    }
    Relative::Seconds(sec, nsec)
}

// Whether `ago` negates a relative item, and where its last word ends. After space is `ago` or `hence`, or neither; what follows the word is
// not tested.
#[tactic(auto, using(relative::proofs::Chain::relatives), unfolding(relative::specs::Relative::direction, primitive::specs::Text::bytes))]
pub fn direction(s: &[u8], at: usize) -> (bool, usize)
    ensures { matched result.0 result.1 ≡ direction (lowered s.now) at }
{
    let start = spaces::space(s, at);
    if let Some(next) = primitive::tag(s, start, b"ago") {
        return (true, next);
    }
    (false, primitive::tag(s, start, b"hence").unwrap_or(at))
}
