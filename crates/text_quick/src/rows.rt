// Rows of digits, as numbers.

ghost use Rattle.std.specs.Prelude.{◌+◌, ◌≤◌, length};
ghost use Rattle.primitive.specs.Text.{lowered};
ghost use Rattle.text_quick.specs.Rows.{DigitOf, RowAt, ShortAt};

// The value of a digit.
#[tactic(auto, unfolding(primitive::specs::Text::digit))]
fn value(b: u8) -> Option<u8>
    ensures { DigitOf b result }
{
    if b.is_ascii_digit() {
        Some(b - b'0')
    } else {
        None
    }
}

// The value of two digits.
#[tactic(auto, using(crate::proofs::DigitRows::rows))]
pub(crate) fn two(s: &[u8], at: usize) -> Option<u8>
    requires { at + 2 ≤ length s.now }
    ensures { RowAt (lowered s.now) at 2 result }
{
    let a = value(s[at])?;
    let b = value(s[at + 1])?;
    Some(a * 10 + b)
}

// The value of four digits.
#[tactic(auto, using(crate::proofs::DigitRows::rows))]
pub(crate) fn four(s: &[u8], at: usize) -> Option<u32>
    requires { at + 4 ≤ length s.now }
    ensures { RowAt (lowered s.now) at 4 result }
{
    let a = two(s, at)?;
    let b = two(s, at + 2)?;
    Some(u32::from(a) * 100 + u32::from(b))
}

// The value of nine digits.
#[tactic(auto, using(crate::proofs::DigitRows::rows))]
pub(crate) fn nine(s: &[u8], at: usize) -> Option<u32>
    requires { at + 9 ≤ length s.now }
    ensures { RowAt (lowered s.now) at 9 result }
{
    let a = four(s, at)?;
    let b = four(s, at + 4)?;
    let c = value(s[at + 8])?;
    Some((a * 10000 + b) * 10 + u32::from(c))
}

// One digit or two, with a byte after them that is none, and where they end.
#[tactic(auto, using(crate::proofs::DigitRows::rows))]
pub(crate) fn short(s: &[u8], at: usize) -> Option<(u8, usize)>
    ensures { ShortAt (lowered s.now) at result }
{
    if s.len() < 3 {
        return None;
    }
    if s.len() - 3 < at {
        return None;
    }
    let a = value(s[at])?;
    let Some(b) = value(s[at + 1]) else {
        return Some((a, at + 1));
    };
    match value(s[at + 2]) {
        None => Some((a * 10 + b, at + 2)),
        Some(_) => None,
    }
}
