// Where lines end, and what is kept of a line that has not ended. The line program's four crates are this one, `line_answers`, `line_chunks` and
// `lines`; they are apart for the gate's time.

#![tactic(auto)]

ghost use Rattle.std.specs.Prelude.{◌≡◌, ◌+◌, ◌-◌, ◌≤◌, length, drop};
ghost use Rattle.line_ends.specs.Put.{Put};
ghost use Rattle.line_ends.specs.Lines.{line_length, kept};

// What is kept of a line: one byte more than the longest text that is read.
const LONGEST_LINE: usize = answers::MAX_LENGTH + 1;

// Where the first line ends: at a byte 10, or with the bytes.
#[tactic(auto, using(crate::proofs::Splitting::line_found))]
pub fn first_line_end(bytes: &[u8]) -> usize
    ensures { (result ≡ line_length bytes.now) × (result ≤ length bytes.now) }
{
    memchr::memchr(b'\n', bytes).unwrap_or(bytes.len())
}

// Where the line that begins at `from` ends: at a byte 10, or with the bytes.
#[tactic(auto, using(crate::proofs::Splitting::outside))]
pub fn line_end(bytes: &[u8], from: usize) -> usize
    ensures { (result ≡ from + line_length (drop from bytes.now)) × (from ≤ result) × (result ≤ from + (length bytes.now - from)) }
{
    if bytes.len() < from {
        return from;
    }
    from + first_line_end(&bytes[from..])
}

// Moves a line that has not ended to the front, no more of it than decides its answer, and answers how much that is.
pub fn keep(buffer: &mut [u8], from: usize, end: usize) -> usize
    ensures put { Put (kept buffer.old from end) 0 buffer.old result buffer.new }
    ensures upper_bound { result ≤ 4097 }
{
    let Some(line) = buffer.get(from..end) else {
        return 0;
    };
    let n = line.len().min(LONGEST_LINE);
    buffer.copy_within(from..from + n, 0);
    n
}
