// Numbers in digits, as in items/primitive.rs. One that is too large for its type is no match. The definitions and laws are in `primitive`.

#![tactic(auto)]

ghost use Rattle.std.specs.Prelude.{◌≡◌, ℕ, List, ◌-◌, ◌<◌, ◌^◌, ltb, cond};
ghost use Rattle.primitive.specs.Answer.{answer_of, found_at, matched, none};
ghost use Rattle.primitive.specs.Text.{lowered};
ghost use Rattle.primitive.specs.Primitive.{spaced, parse_uint, dec_uint};
ghost use Rattle.primitive.specs.Ordinal.{signed, signed_number};

// The value of digits, if it is at most `max`: the Rust's `parse` on a part of the text. Each step is tested before it is made, so that
// no sum is too large.
#[tactic(auto, using(primitive::proofs::Values::values))]
pub fn parse_uint(digits: &[u8], max: u64) -> Option<u64>
    ensures { (text : List ℕ) (at : ℕ) → found_at at result ≡ parse_uint max (lowered digits.now) text at }
{
    let mut acc: u64 = 0;
    for b in digits {
        let d = digit_value(primitive::to_lower(*b));
        if max < d {
            return None;
        }
        if (max - d) / 10 < acc {
            return None;
        }
        acc = acc * 10 + d;
    }
    Some(acc)
}

// The same for a limit that is a byte.
pub fn parse_u8(digits: &[u8], max: u8) -> Option<u8>
    ensures { (text : List ℕ) (at : ℕ) → found_at at result ≡ parse_uint max (lowered digits.now) text at }
{
    let value = parse_uint(digits, u64::from(max))?;
    Some(value as u8)
}

fn digit_value(b: u8) -> u64
    ensures { result ≡ b - 48 }
{
    u64::from(b.saturating_sub(48))
}

// A number of at most `max`, for a limit that leaves room for one digit more.
#[tactic(auto, using(primitive::proofs::Scans::scans))]
pub(crate) fn dec_uint(s: &[u8], at: usize, max: u64) -> Option<(u64, usize)>
    requires { max < 2 ^ 60 }
    ensures { answer_of result ≡ dec_uint max (lowered s.now) at }
{
    let mut acc: u64 = 0;
    // the place where the digits end is answered too, so places are gone through
    for i in at..s.len() {
        let b = s[i];
        if !primitive::is_digit(b) {
            return number_of(at, i, acc);
        }
        acc = acc * 10 + digit_value(b);
        if max < acc {
            return None;
        }
    }
    number_of(at, usize::max(at, s.len()), acc)
}

// The number n from `at` up to `end`, if there is any byte between them.
fn number_of(at: usize, end: usize, n: u64) -> Option<(u64, usize)>
    ensures { answer_of result ≡ cond (ltb at end) (matched n end) none }
{
    if at < end { Some((n, end)) } else { None }
}

// A number of at most `max`, for any limit: the digits are gone through twice.
#[tactic(auto, unfolding(primitive::specs::Primitive::dec_uint))]
fn long_uint(s: &[u8], at: usize, max: u64) -> Option<(u64, usize)>
    ensures { answer_of result ≡ dec_uint max (lowered s.now) at }
{
    let (digits, end) = primitive::dec_uint_str(s, at)?;
    Some((parse_uint(digits, max)?, end))
}

// A generic function in place of `dec_u8` and `dec_u32` would take a type and a limit that fits it: no plainer than two casts.
fn dec_u8(s: &[u8], at: usize) -> Option<(u8, usize)>
    ensures { answer_of result ≡ dec_uint 255 (lowered s.now) at }
{
    let (v, next) = dec_uint(s, at, 255)?;
    Some((v as u8, next))
}

pub fn dec_u32(s: &[u8], at: usize) -> Option<(u32, usize)>
    ensures { answer_of result ≡ dec_uint 4294967295 (lowered s.now) at }
{
    let (v, next) = dec_uint(s, at, 4294967295)?;
    Some((v as u32, next))
}

#[tactic(auto, using(primitive::proofs::Scans::scans))]
pub fn dec_u64(s: &[u8], at: usize) -> Option<(u64, usize)>
    ensures { answer_of result ≡ dec_uint 18446744073709551615 (lowered s.now) at }
{
    dec_uint(s, at, 999999999999999999).or_else(|| long_uint(s, at, 18446744073709551615))
}

// A number after space.
pub fn spaced_u8(s: &[u8], at: usize) -> Option<(u8, usize)>
    ensures { answer_of result ≡ spaced (dec_uint 255) (lowered s.now) at }
{
    dec_u8(s, spaces::space(s, at))
}

// A number after space that fits an i32, with the sign that was read before it.
#[tactic(auto, unfolding(primitive::specs::Ordinal::signed_number))]
pub fn signed_number(s: &[u8], at: usize, negative: bool) -> Option<(i32, usize)>
    ensures { answer_of result ≡ signed_number negative (lowered s.now) at }
{
    let (n, next) = dec_uint(s, spaces::space(s, at), 2147483647)?;
    Some((with_sign(negative, n as u32) as i32, next))
}

// The number with its sign.
#[tactic(auto, unfolding(primitive::specs::Ordinal::signed))]
pub fn with_sign(negative: bool, n: u32) -> i64
    ensures { result ≡ signed negative n }
{
    let n = i64::from(n);
    if negative { -n } else { n }
}
