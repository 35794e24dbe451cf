// The lists that the replay programs read. `input` has the lines of standard input. In a list of `items_replay` or `profile_replay` a line is a
// heading, or a text with the reason why it is in the list.
//
// A text is followed by a tab, and what follows the tab is skipped; a line without a tab is a heading. In both `{N}` is the byte of that number
// and `{N:PART}` is N times PART, without a brace.
#![tactic(auto)]

mod input;

ghost use Rattle.std.specs.Prelude.{◌<◌, ◌≤◌, IfSome, length};
ghost use Rattle.replay_lines.specs.Lines.{bytes_of};

use arrayvec::ArrayVec;
pub use input::Lines;

// The most bytes of a line's text. It is more than the library reads, so that an oversize text can be in a list.
const MOST_BYTES: usize = 8192;

#[derive(Drop)]
pub enum Line {
    // No tab ends the text.
    Heading(ArrayVec<u8, MOST_BYTES>),
    Text(ArrayVec<u8, MOST_BYTES>),
}

// The line that bytes are, unless its text is too long. Other braces than those two forms have a meaning that no list uses: a `}` without
// its `{` takes away what follows the brace before it, and a number that nothing ends is the end of the line.
pub fn expanded(bytes: &[u8]) -> Option<Line>
    ensures { IfSome result (λ line. length (bytes_of line) ≤ 8192) }
{
    let mut text = ArrayVec::new();
    // Where the part began that the next `}` ends, and how many copies there will be of it.
    let mut start = 0;
    let mut copies = 0;
    let mut rest = bytes;
    while let Some(at) = find(rest, b"\t{}") {
        let part = &rest[..at];
        text.try_extend_from_slice(part).ok()?;
        let mark = rest[at];
        rest = &rest[at + 1..];
        match mark {
            b'\t' => return Some(Line::Text(text)),
            b'{' => {
                let (number, next) = number_at(rest);
                start = text.len();
                copies = 0;
                rest = match next.split_first() {
                    Some((b':', after)) => {
                        copies = number;
                        after
                    }
                    Some((_, after)) => {
                        text.try_push(u8::try_from(number).ok()?).ok()?;
                        after
                    }
                    None => next,
                };
            }
            // An empty part does not end yet.
            _ if start < text.len() => {
                text.truncate(start);
                for _ in 0..copies {
                    text.try_extend_from_slice(part).ok()?;
                }
                start = text.len();
                copies = 0;
            }
            _ => {}
        }
    }
    text.try_extend_from_slice(rest).ok()?;
    Some(Line::Heading(text))
}

// The place of the first of these marks.
fn find(bytes: &[u8], marks: &[u8]) -> Option<usize>
    ensures { IfSome result (λ at. at < length bytes.now) }
{
    bytes.iter().position(|byte| marks.contains(byte))
}

// The number in front of `:` or `}`, and what follows it. A number that can't be read is as large as can be.
fn number_at(bytes: &[u8]) -> (usize, &[u8])
    ensures { length result.1.now ≤ length bytes.now }
{
    let end = find(bytes, b":}").unwrap_or(bytes.len());
    let number = bytes[..end].iter().fold(0, |n, byte| with_digit(n, *byte));
    (number, &bytes[end..])
}

fn with_digit(number: usize, byte: u8) -> usize {
    if !byte.is_ascii_digit() {
        return usize::MAX;
    }
    number
        .saturating_mul(10)
        .saturating_add(usize::from(byte - b'0'))
}
