// The answer to one line of the line program, put into lent bytes: number 0 and the text of a record, or the number and the place of a
// refusal. The lines of a chunk are in `line_chunks`.

#![tactic(auto)]

ghost use Rattle.std.specs.Prelude.{◌≡◌, [], ◌∷◌, ◌+◌, ◌≤◌, ◌<◌, length};
ghost use Rattle.answers.specs.Outcome.{number, value_or};
ghost use Rattle.answers.specs.Refusals.{code, outcome_of, placed_of};
ghost use Rattle.writer.specs.Writer.{width, digits, written, bytes_of};
ghost use Rattle.line_answers.specs.Answers.{refusal_line, written_line, line_answer, Put};

use answers::{LONGEST_TEXT, PlacedRefusal, Refusal};
use extended::ExtendedDateTime;

// An answer has no more bytes: number 0, a blank, the longest text and byte 10.
pub const LONGEST_ANSWER: usize = LONGEST_TEXT + 3;

// An answer at the front of the lent place; nothing where the place may be too short for one.
pub fn put_first(built: Result<ExtendedDateTime, PlacedRefusal>, out: &mut [u8]) -> usize
    ensures upper_bound { (result ≤ 44) × (result ≤ length out.new) }
    ensures value { length out.old < 44 → (result ≡ 0) × (out.new ≡ out.old) }
    ensures put { 44 ≤ length out.old → Put (line_answer (placed_of built)) 0 out.old result out.new }
{
    let Some(front) = out.first_chunk_mut() else {
        return 0;
    };
    put_answer(built, front)
}

// An answer at the front of the lent place.
#[tactic(auto, unfolding(crate::specs::Answers::line_answer))]
fn put_answer(
    built: Result<ExtendedDateTime, PlacedRefusal>,
    out: &mut [u8; LONGEST_ANSWER],
) -> usize
    ensures upper_bound { result ≤ 44 }
    ensures put { Put (line_answer (placed_of built)) 0 out.old result out.new }
{
    match built {
        Ok(record) => put_record(record, out),
        Err(refused) => put_refusal(refused, out),
    }
}

// Number 0 and the text of a record; or the writer's refusal, at place 0.
fn put_record(record: ExtendedDateTime, out: &mut [u8; LONGEST_ANSWER]) -> usize
    ensures upper_bound { result ≤ 44 }
    ensures put { Put (written_line (written «record» 41)) 0 out.old result out.new }
{
    out[..2].copy_from_slice(b"0 ");
    match put_text(record, out) {
        Ok(length) => put_byte(b'\n', out, 2 + length),
        Err(refusal) => put_refusal(refusal.at(0), out),
    }
}

// The text of a record, at place 2 of an answer, where 41 bytes are its room.
fn put_text(record: ExtendedDateTime, out: &mut [u8; LONGEST_ANSWER]) -> Result<usize, Refusal>
    ensures number_value { (number (outcome_of result) ≡ number (written «record» 41)) × (value_or 0 (outcome_of result) ≤ 41) }
    ensures put { Put (bytes_of (written «record» 41)) 2 out.old (2 + value_or 0 (outcome_of result)) out.new }
{
    writer::write(record, &mut out[2..2 + LONGEST_TEXT])
}

// The number and the place of a refusal.
fn put_refusal(refused: PlacedRefusal, out: &mut [u8; LONGEST_ANSWER]) -> usize
    ensures upper_bound { result ≤ 44 }
    ensures put { Put (refusal_line (code refused.refusal) refused.place) 0 out.old result out.new }
{
    let number = u32::from(refused.refusal);
    let at = put_decimal(u64::from(number), out, 0);
    let at = put_byte(b' ', out, at);
    let at = put_decimal(refused.place as u64, out, at);
    put_byte(b'\n', out, at)
}

// One byte at a place of a slice; the answer is the place after it.
fn put_byte(byte: u8, out: &mut [u8], at: usize) -> usize
    requires { at < length out.old }
    ensures { Put (byte ∷ []) at out.old result out.new }
{
    out[at] = byte;
    at + 1
}

// A number in as many digits as it needs, at a place of a slice; the answer is the place after it.
fn put_decimal(number: u64, out: &mut [u8], at: usize) -> usize
    requires { at + 20 ≤ length out.old }
    ensures upper_bound { result ≤ at + 20 }
    ensures put { Put (digits number) at out.old result out.new }
{
    let end = at + writer::decimal_width(number);
    writer::fill_digits(&mut out[at..end], number);
    end
}
