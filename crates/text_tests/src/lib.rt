// The tests that a text and its base pass before the text is read, whatever reads it: the base, the length, and that no byte is 128 or more.
// The reader of texts is `text_reader`.

#![tactic(auto)]

ghost use Rattle.std.specs.Prelude.{◌≡◌, ◌<◌, ◌≤◌, length};
ghost use Rattle.answers.specs.Refusals.{placed_of};
ghost use Rattle.text_tests.specs.Tests.{ascii_end, test_text};

use answers::{MAX_LENGTH, PlacedRefusal, Refusal};
use extended::ExtendedDateTime;

// Whether a text may be read under a base. Inlined, since it is the front of every read.
#[inline(always)]
#[tactic(auto, using(crate::proofs::Steps::steps))]
pub fn test_text(text: &[u8], base: ExtendedDateTime) -> Result<(), PlacedRefusal>
    ensures { placed_of result ≡ test_text text.now base }
{
    base.test()?;
    if text.len() > MAX_LENGTH {
        return Err(Refusal::Oversize.at(0));
    }
    let end = ascii_end(text);
    if end < text.len() {
        return Err(Refusal::Foreign.at(end));
    }
    Ok(())
}

// The place of the first byte of 128 or more; without one, the length.
#[tactic(auto, using(crate::proofs::Bytes::bytes))]
fn ascii_end(text: &[u8]) -> usize
    ensures { result ≡ ascii_end text.now }
{
    // nearly every text has no other byte, and this pass has no branch
    if highest(text) < 128 {
        return text.len();
    }
    // primitive's `past` has a premise about its closure, so it is not public; of `position` std says nothing that this proof uses
    for i in 0..text.len() {
        if text[i] >= 128 {
            return i;
        }
    }
    text.len()
}

// An upper bound on the text's bytes. The contract asks for one below 128 only where every byte is; a higher answer costs time alone.
#[tactic(auto, using(crate::proofs::Bytes::bytes))]
fn highest(text: &[u8]) -> u8
    ensures { result < 128 → length text.now ≤ ascii_end text.now }
{
    let mut most: u8 = 0;
    for byte in text {
        most = most.max(*byte);
    }
    most
}
