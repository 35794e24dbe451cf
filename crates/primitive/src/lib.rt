// The ground of the text readers, as in items/primitive.rs: what a reader returns, single bytes, runs of bytes, and fixed bytes. A reader takes a
// text and a place in it, any place, and returns what it found and the next place, if it found anything. It sees the text in lower case, and
// lowers each byte as it reads it. Text and place are two arguments, since a reader looks at many places of one text, as the definitions do.
//
// The definitions and laws of `spaces`, `numbers`, `epoch` and `words` are here too. These are crates of their own for the gate's time: an edit of
// must-fail/ costs one check of its crate.

#![tactic(auto)]

ghost use Rattle.std.specs.Prelude.{ℕ, Bool, ◌≡◌, eqb};
ghost use Rattle.std.proofs.Math.Seq.{slice};
ghost use Rattle.primitive.specs.Text.{lower, lowered, part_answer, blank, digit, letter, past, some, Tells, byte, tag};
ghost use Rattle.primitive.specs.Answer.{answer_of, place_answer};
ghost use Rattle.primitive.specs.Primitive.{multispace1, sign, dec_uint_str, alpha1};

// Why a reader that may stop the reading found nothing.
#[derive(Clone, Copy, Debug, PartialEq, Eq)]
pub enum Miss {
    // there is no such thing there: another reader may be tried
    NoMatch,
    // what is there is refused, whatever other readers would make of it
    Stop,
}

// Seconds, of any size or below 60, and the nanoseconds after them.
#[derive(Clone, Copy)]
pub struct SecAndNsec<T> {
    pub sec: T,
    pub nsec: u32,
}

// A byte in lower case.
#[tactic(auto, unfolding(crate::specs::Text::lower))]
pub fn to_lower(b: u8) -> u8
    ensures { result ≡ lower b }
{
    b.to_ascii_lowercase()
}

// `is_ascii_whitespace` leaves out byte 11.
#[tactic(auto, unfolding(crate::specs::Text::blank))]
fn is_blank(b: u8) -> bool
    ensures { result ≡ blank b }
{
    matches!(b, 9..=13 | 32)
}

#[tactic(auto, unfolding(crate::specs::Text::digit))]
pub fn is_digit(b: u8) -> bool
    ensures { result ≡ digit b }
{
    b.is_ascii_digit()
}

// Whether a byte is a letter, small or capital.
#[tactic(auto, unfolding(crate::specs::Text::letter, crate::specs::Text::lower))]
fn is_letter(b: u8) -> bool
    ensures { result ≡ letter (lower b) }
{
    b.is_ascii_alphabetic()
}

// The end of the bytes from a place on that pass a test.
#[tactic(auto, using(crate::proofs::Runs::runs))]
fn past<F: Fn(u8) -> bool>(s: &[u8], at: usize, passes: F) -> usize
    requires { F.IsAlwaysCallable passes }
    ensures { (p : ℕ → Bool) → Tells (F.post passes) p → result ≡ past p (lowered s.now) at }
{
    // `position` does not do: std speaks of the closure's runs there, which no proof here uses
    for i in at..s.len() {
        if !passes(s[i]) {
            return i;
        }
    }
    usize::max(at, s.len())
}

// The bytes from `at` up to `end`, as far as the text goes.
pub fn part(s: &[u8], at: usize, end: usize) -> &[u8]
    ensures { lowered result.now ≡ slice at end (lowered s.now) }
{
    let to = end.min(s.len());
    if at < to { &s[at..to] } else { &[] }
}

// Those bytes and where they end, where there is one or more.
fn some<F: Fn(u8) -> bool>(s: &[u8], at: usize, passes: F) -> Option<(&[u8], usize)>
    requires { F.IsAlwaysCallable passes }
    ensures { (p : ℕ → Bool) → Tells (F.post passes) p → part_answer result ≡ some p (lowered s.now) at }
{
    let end = past(s, at, passes);
    if at < end {
        Some((part(s, at, end), end))
    } else {
        None
    }
}

// The end of the blanks at a place.
pub fn multispace0(s: &[u8], at: usize) -> usize
    ensures { result ≡ past blank (lowered s.now) at }
{
    past(s, at, is_blank)
}

// One blank or more.
pub fn multispace1(s: &[u8], at: usize) -> Option<(&[u8], usize)>
    ensures { part_answer result ≡ multispace1 (lowered s.now) at }
{
    some(s, at, is_blank)
}

// One digit or more.
pub fn dec_uint_str(s: &[u8], at: usize) -> Option<(&[u8], usize)>
    ensures { part_answer result ≡ dec_uint_str (lowered s.now) at }
{
    some(s, at, is_digit)
}

// The end of the digits at a place.
pub fn digits(s: &[u8], at: usize) -> usize
    ensures { result ≡ past digit (lowered s.now) at }
{
    past(s, at, is_digit)
}

// One byte. A capital letter is never found, as the text is seen in lower case.
#[tactic(auto, using(crate::proofs::Tags::tags))]
pub fn byte(s: &[u8], at: usize, b: u8) -> Option<usize>
    ensures { place_answer result ≡ byte b (lowered s.now) at }
{
    let c = s.get(at)?;
    if lowers_to(*c, b) { Some(at + 1) } else { None }
}

// Whether a byte is b in lower case. One below 65, the letter A, is its own.
#[tactic(auto, using(crate::proofs::Tags::tags))]
fn lowers_to(c: u8, b: u8) -> bool
    ensures { result ≡ eqb (lower c) b }
{
    if b < b'A' {
        return c == b;
    }
    to_lower(c) == b
}

// A plus or minus.
#[tactic(auto, unfolding(crate::specs::Primitive::sign))]
pub fn sign(s: &[u8], at: usize) -> Option<(bool, usize)>
    ensures { answer_of result ≡ sign (lowered s.now) at }
{
    let plus = byte(s, at, b'+').map(|next| (false, next));
    plus.or_else(|| byte(s, at, b'-').map(|next| (true, next)))
}

// The bytes `w`, in lower case, whatever follows them.
#[tactic(auto, using(crate::proofs::Tags::tags))]
pub fn tag(s: &[u8], at: usize, w: &[u8]) -> Option<usize>
    ensures { place_answer result ≡ tag w.now (lowered s.now) at }
{
    for (k, b) in w.iter().enumerate() {
        let c = s.get(at + k)?;
        if to_lower(*c) != *b {
            return None;
        }
    }
    Some(at + w.len())
}

// A word, one letter or more.
pub fn alpha1(s: &[u8], at: usize) -> Option<(&[u8], usize)>
    ensures { part_answer result ≡ alpha1 (lowered s.now) at }
{
    some(s, at, is_letter)
}
