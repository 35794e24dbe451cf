// Seconds with a fraction, as in items/epoch.rs: whole seconds, then a point or comma and one digit or more. The first nine digits count, as
// nanoseconds, and each reader says whether one of the others is not zero. A point without a digit is left unread. The definitions and laws are
// in `primitive`.

#![tactic(auto)]

ghost use Rattle.std.specs.Prelude.{◌≡◌, length};
ghost use Rattle.primitive.specs.Text.{lowered, digit, run};
ghost use Rattle.primitive.specs.Answer.{place_answer, lossy_answer};
ghost use Rattle.primitive.specs.Epoch.{point_or_comma, nanoseconds, lost, fraction, sec_and_nsec};

use primitive::SecAndNsec;

#[tactic(auto, unfolding(primitive::specs::Epoch::sec_and_nsec))]
pub fn sec_and_nsec(s: &[u8], at: usize) -> Option<(SecAndNsec<u64>, usize, bool)>
    ensures { lossy_answer result ≡ sec_and_nsec (lowered s.now) at }
{
    let (sec, at) = numbers::dec_u64(s, at)?;
    let (nsec, next, dropped) = fraction(s, at).unwrap_or((0, at, false));
    Some((SecAndNsec { sec, nsec }, next, dropped))
}

// A point or comma and the digits after it, as nanoseconds.
#[tactic(auto, using(primitive::proofs::Fractions::fractions), unfolding(primitive::specs::Epoch::fraction))]
pub fn fraction(s: &[u8], at: usize) -> Option<(u32, usize, bool)>
    ensures { lossy_answer result ≡ fraction (lowered s.now) at }
{
    let start = point_or_comma(s, at)?;
    let (digits, end) = primitive::dec_uint_str(s, start)?;
    Some((nanoseconds(digits), end, lost(digits)))
}

#[tactic(auto, unfolding(primitive::specs::Epoch::point_or_comma))]
pub fn point_or_comma(s: &[u8], at: usize) -> Option<usize>
    ensures { place_answer result ≡ point_or_comma (lowered s.now) at }
{
    primitive::byte(s, at, b'.').or_else(|| primitive::byte(s, at, b','))
}

// The value of nine digits: those that are given, and zeros after them where there are fewer.
#[tactic(auto, using(primitive::proofs::Fractions::fractions))]
fn nanoseconds(digits: &[u8]) -> u32
    requires { run digit (lowered digits.now) ≡ length digits.now }
    ensures { result ≡ nanoseconds (lowered digits.now) }
{
    let mut acc: u32 = 0;
    // nine turns, whatever digits there are
    for k in 0..9 {
        if k < digits.len() {
            acc = acc * 10 + u32::from(digits[k] - b'0');
        } else {
            acc *= 10;
        }
    }
    acc
}

// Whether a digit after the ninth is not zero.
#[tactic(auto, using(primitive::proofs::Fractions::losing))]
fn lost(digits: &[u8]) -> bool
    ensures { result ≡ lost (lowered digits.now) }
{
    for i in 9..digits.len() {
        if digits[i] != b'0' {
            return true;
        }
    }
    false
}
