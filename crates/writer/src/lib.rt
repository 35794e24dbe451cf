// The text of a record, as 0005-01-02 03:04:05.000000006+00:00.
//
// The text is built as one value of 41 bytes and a length (text.rs), to whose end each part is put, and is copied out at the end. A record that
// `new` refuses gets `new`'s refusal, an offset of no whole minutes `Seam`, lent bytes that are too few `Short`; a refusal writes nothing.
#![tactic(auto)]

mod text;

ghost use Rattle.std.specs.Prelude.{◌≡◌, ◌≤◌, max, length};
ghost use Rattle.answers.specs.Refusals.{outcome_of};
ghost use Rattle.writer.specs.Writer.{fixed, width, negative, sign_of, text_of, written, bytes_of, written_length, length_answer, over};

use answers::Refusal;
use extended::ExtendedDateTime;
use text::Text;

// What C is answered: the number of the answer, and how many bytes were written.
#[repr(C)]
#[derive(Clone, Copy)]
pub struct Written {
    pub number: u32,
    pub length: u32,
}

// No text is longer than 41 bytes; a length that the field can't represent would be the largest that it can.
impl From<Result<usize, Refusal>> for Written {
    ghost from_gives = { λ made answer. answer ≡ length_answer (outcome_of made) };

    #[tactic(auto, unfolding(crate::specs::Writer::length_answer))]
    fn from(made: Result<usize, Refusal>) -> Written {
        match made {
            Ok(length) => Written {
                number: 0,
                length: u32::try_from(length).unwrap_or(u32::MAX),
            },
            Err(refusal) => Written {
                number: u32::from(refusal),
                length: 0,
            },
        }
    }
}

// Writes the text of a record to the front of the lent place; answered is how many bytes it has.
#[tactic(auto, unfolding(crate::specs::Writer::written))]
pub fn write(record: ExtendedDateTime, out: &mut [u8]) -> Result<usize, Refusal>
    ensures value { outcome_of result ≡ written_length (written «record» (length out.old)) }
    ensures out_after { out.new ≡ over (bytes_of (written «record» (length out.old))) out.old }
{
    record.test()?;
    let offset = record.offset_seconds.unsigned_abs();
    if offset % 60 > 0 {
        return Err(Refusal::Seam);
    }
    let text = text_of(record);
    let bytes = text.as_bytes();
    let n = bytes.len();
    if n > out.len() {
        return Err(Refusal::Short);
    }
    out[..n].copy_from_slice(bytes);
    Ok(n)
}

// The whole text.
fn text_of(record: ExtendedDateTime) -> Text
    ensures { result ≡ text_of «record» }
{
    let mut text = Text::new();
    text.push_digits(year_width(record.year), record.year);
    text.push_field(b'-', 2, u32::from(record.month));
    text.push_field(b'-', 2, u32::from(record.day));
    text.push_field(b' ', 2, u32::from(record.hour));
    text.push_field(b':', 2, u32::from(record.minute));
    text.push_field(b':', 2, u32::from(record.second));
    text.push_field(b'.', 9, record.nanosecond);
    let offset = record.offset_seconds.unsigned_abs();
    text.push_field(sign(record.offset_seconds), 2, offset / 3600);
    text.push_field(b':', 2, offset % 3600 / 60);
    text
}

// `-` for an offset below 0, else `+`.
fn sign(offset_seconds: i32) -> u8
    ensures { result ≡ sign_of (negative offset_seconds) }
{
    if offset_seconds < 0 { b'-' } else { b'+' }
}

// How many digits a year is written in.
fn year_width(year: u32) -> usize
    ensures { (result ≡ max 4 (width year)) × (result ≤ 10) }
{
    decimal_width(u64::from(year)).max(4)
}

// How many digits a number has.
#[tactic(auto, using(crate::proofs::Digits::width_by_powers))]
pub fn decimal_width(number: u64) -> usize
    ensures { (result ≡ width number) × (result ≤ 20) }
{
    number.max(1).ilog10() as usize + 1
}

// Fills a row with the last digits of a number, from the last one on.
#[tactic(auto, using(crate::proofs::Filling::filled_next))]
pub fn fill_digits(row: &mut [u8], number: u64)
    ensures { row.new ≡ fixed (length row.old) number }
{
    let mut left = number;
    // of `iter_mut().rev()` std says nothing that this proof uses
    for i in (0..row.len()).rev() {
        row[i] = b'0' + (left % 10) as u8;
        left /= 10;
    }
}
