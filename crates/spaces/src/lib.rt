// Space, and what is read after it, as in items/primitive.rs. Space between tokens is blanks, comments and signs that no digit follows; `space`
// returns where it ends. The definitions and laws are in `primitive`.

#![tactic(auto)]

ghost use Rattle.std.specs.Prelude.{◌≡◌, true};
ghost use Rattle.primitive.specs.Text.{lowered, byte};
ghost use Rattle.primitive.specs.Answer.{answer_of, place_answer};
ghost use Rattle.primitive.specs.Primitive.{comment, ignored_hyphen_or_plus, ignored, space, spaced, colon, plus_or_minus};

// The end of the space at a place. No byte above the hyphen begins any.
#[tactic(auto, using(primitive::proofs::Spaces::ends))]
pub fn space(s: &[u8], at: usize) -> usize
    ensures { result ≡ space (lowered s.now) at }
{
    if s.len() <= at {
        return at;
    }
    let b = s[at];
    if b'-' < b {
        return at;
    }
    if b == b' ' {
        let next = at + 1;
        if next < s.len() {
            if b'-' < s[next] {
                return next;
            }
        }
    }
    low_space(s, at)
}

// The same where a low byte follows. A sign with a digit after it ends the space, and so it does after a blank. Inlined, it would have `space`
// save registers on its quick ways too: 10 instructions a call.
#[inline(never)]
#[tactic(auto, using(primitive::proofs::Spaces::ends))]
fn low_space(s: &[u8], at: usize) -> usize
    ensures { result ≡ space (lowered s.now) at }
{
    if signed_digit(s, at) {
        return at;
    }
    if at < s.len() {
        if s[at] == b' ' {
            let next = at + 1;
            if signed_digit(s, next) {
                return next;
            }
        }
    }
    skip_space(s, at)
}

// Whether there is a sign with a digit after it, which is not ignored.
fn signed_digit(s: &[u8], at: usize) -> bool
    ensures { result ≡ true → at ≡ space (lowered s.now) at }
{
    if s.len() <= at {
        return false;
    }
    let next = at + 1;
    if s.len() <= next {
        return false;
    }
    if s[at] == b'+' {
        return primitive::is_digit(s[next]);
    }
    if s[at] == b'-' {
        return primitive::is_digit(s[next]);
    }
    false
}

// The end of the space and comments at a place.
#[inline(never)]
#[tactic(auto, using(primitive::proofs::Spaces::spaces))]
fn skip_space(s: &[u8], at: usize) -> usize
    ensures { result ≡ space (lowered s.now) at }
{
    let mut i = primitive::multispace0(s, at);
    // each step ends where another reader does, so there is no index to count
    while i < s.len() {
        if b'-' < s[i] {
            return i;
        }
        let Some(next) = ignored(s, i) else {
            return i;
        };
        i = primitive::multispace0(s, next);
    }
    i
}

// A comment, or a sign that is ignored. Where no parenthesis opens, `comment` is not called: a call for each sign would cost a third more.
#[tactic(auto, using(primitive::proofs::Spaces::spaces), unfolding(primitive::specs::Primitive::ignored, primitive::specs::Primitive::comment))]
fn ignored(s: &[u8], at: usize) -> Option<usize>
    ensures { place_answer result ≡ ignored (lowered s.now) at }
{
    if primitive::byte(s, at, b'(').is_none() {
        return ignored_hyphen_or_plus(s, at);
    }
    comment(s, at).or_else(|| ignored_hyphen_or_plus(s, at))
}

// A hyphen or plus is ignored when no digit follows it, after blanks too. In `- (comment) 12 weeks` a comment follows it.
#[tactic(auto, using(primitive::proofs::Spaces::spaces), unfolding(primitive::specs::Primitive::ignored_hyphen_or_plus))]
fn ignored_hyphen_or_plus(s: &[u8], at: usize) -> Option<usize>
    ensures { place_answer result ≡ ignored_hyphen_or_plus (lowered s.now) at }
{
    let (_, next) = primitive::sign(s, at)?;
    let end = primitive::multispace0(s, next);
    if end < s.len() {
        if primitive::is_digit(s[end]) {
            return None;
        }
    }
    Some(end)
}

// A comment is between parentheses and may contain comments; one that is not closed is no comment. An inner comment is read in all bytes but
// the last, since the outer one has still to close: so at most half of the bytes open comments in one another, and each takes one call.
#[tactic(auto, using(primitive::proofs::Spaces::comments, primitive::proofs::Comments::inside_unclosed), unfolding(primitive::specs::Primitive::comment))]
fn comment(s: &[u8], at: usize) -> Option<usize>
    ensures { place_answer result ≡ comment (lowered s.now) at }
{
    let start = primitive::byte(s, at, b'(')?;
    let (_, all_but_last) = s.split_last()?;
    let mut i = start;
    // a step over an inner comment is as long as that comment, so `for` doesn't fit
    while i < s.len() {
        match s[i] {
            b'(' => i = comment(all_but_last, i)?,
            b')' => return Some(i + 1),
            _ => i += 1,
        }
    }
    None
}

// One byte after space.
pub fn spaced_byte(s: &[u8], at: usize, b: u8) -> Option<usize>
    ensures { place_answer result ≡ spaced (byte b) (lowered s.now) at }
{
    primitive::byte(s, space(s, at), b)
}

// A hyphen after space. One with a digit after it, which is not ignored, is found at once.
#[tactic(auto, using(primitive::proofs::Spaces::spaces))]
pub fn spaced_hyphen(s: &[u8], at: usize) -> Option<usize>
    ensures { place_answer result ≡ spaced (byte 45) (lowered s.now) at }
{
    if at < s.len() {
        if s[at] == b'-' {
            let next = at + 1;
            if next < s.len() {
                if primitive::is_digit(s[next]) {
                    return Some(next);
                }
            }
        }
    }
    primitive::byte(s, skip_space(s, at), b'-')
}

#[tactic(auto, unfolding(primitive::specs::Primitive::colon))]
pub fn colon(s: &[u8], at: usize) -> Option<usize>
    ensures { place_answer result ≡ colon (lowered s.now) at }
{
    spaced_byte(s, at, b':')
}

// A plus or minus, after space.
#[tactic(auto, unfolding(primitive::specs::Primitive::plus_or_minus))]
pub fn plus_or_minus(s: &[u8], at: usize) -> Option<(bool, usize)>
    ensures { answer_of result ≡ plus_or_minus (lowered s.now) at }
{
    primitive::sign(s, space(s, at))
}
