// The answers of the line program to the whole lines of a chunk of input, on slices. What they are for a whole input is in specs/ and proofs/.

#![tactic(auto)]

ghost use Rattle.std.specs.Prelude.{◌≡◌, ◌-◌, ◌≤◌, length};
ghost use Rattle.text_general.specs.Reading.{read_text};
ghost use Rattle.line_answers.specs.Answers.{line_answer, Put};
ghost use Rattle.line_chunks.specs.Lines.{epoch, answers, answered, unlines, wanting};

use extended::{DateParts, ExtendedDateTime, TimeParts};

// How far the lines of a chunk are answered: the bytes of the chunk that are taken, the bytes of answers, and whether the answers stopped
// for want of room.
#[derive(Clone, Copy)]
pub struct Progress {
    pub taken: usize,
    pub used: usize,
    pub full: bool,
}

// Answers whole lines, from the front of the chunk to the front of the lent place.
pub fn put_answers(chunk: &[u8], base: ExtendedDateTime, out: &mut [u8]) -> Progress
    ensures taken_in_bounds { (result.taken ≤ length chunk.now) × (result.used ≤ length out.old) }
    ensures taken_value { result.taken ≡ length (unlines (answered chunk.now base (length out.old))) }
    ensures put { Put (answers base (answered chunk.now base (length out.old))) 0 out.old result.used out.new }
    ensures full_value { result.full ≡ wanting (length chunk.now - result.taken) (length out.old - result.used) }
{
    let mut progress = Progress {
        taken: 0,
        used: 0,
        full: false,
    };
    // a step is as long as the line that was answered, and the line that has not ended stays
    while progress.taken < chunk.len() {
        if out.len() - progress.used < line_answers::LONGEST_ANSWER {
            return Progress {
                full: true,
                ..progress
            };
        }
        let end = line_ends::line_end(chunk, progress.taken);
        if end == chunk.len() {
            break;
        }
        progress.used += put_line(&chunk[progress.taken..end], base, &mut out[progress.used..]);
        progress.taken = end + 1;
    }
    progress
}

// The base of line 1.
#[tactic(auto, unfolding(crate::specs::Lines::epoch))]
pub fn epoch() -> ExtendedDateTime
    ensures { result ≡ epoch }
{
    let date = DateParts {
        year: 1970,
        month: 1,
        day: 1,
    };
    let time = TimeParts {
        hour: 0,
        minute: 0,
        second: 0,
        nanosecond: 0,
    };
    extended::from_parts(date, time, 0)
}

// The answer to a line.
fn put_line(line: &[u8], base: ExtendedDateTime, out: &mut [u8]) -> usize
    requires { 44 ≤ length out.old }
    ensures upper_bound { result ≤ 44 }
    ensures put { Put (line_answer (read_text line.now base)) 0 out.old result out.new }
{
    line_answers::put_first(text_reader::read_text(line, base), out)
}
