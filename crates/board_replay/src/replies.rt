// Replies, one line each.
use answers::Refusal;
use board::{Deadline, Held};
use std::io::{Stdout, Write};

// A line that is no call: a number that no answer has.
pub fn write_unknown(out: &mut Stdout) -> std::io::Result<()> {
    writeln!(out, "99")
}

// A change of the run: 0, or 99 if the run has no such place.
pub fn write_done(out: &mut Stdout, done: Option<()>) -> std::io::Result<()> {
    match done {
        Some(()) => writeln!(out, "0"),
        None => write_unknown(out),
    }
}

// A call of the board: 0, the count and the next to stop, or the number of the refusal alone.
pub fn write_held(out: &mut Stdout, answer: Result<Held, Refusal>) -> std::io::Result<()> {
    match answer {
        Ok(held) => {
            let next = held.next.unwrap_or(Deadline::ZEROS);
            writeln!(
                out,
                "0 {} {} {} {}",
                held.count, next.id, next.moment, next.nanosecond
            )
        }
        Err(refusal) => writeln!(out, "{}", u32::from(refusal)),
    }
}

// The places of the run, with one space between two.
pub fn write_records(out: &mut Stdout, records: &[Deadline]) -> std::io::Result<()> {
    let mut between = "";
    for record in records {
        write!(
            out,
            "{between}{}:{}:{}",
            record.id, record.moment, record.nanosecond
        )?;
        between = " ";
    }
    writeln!(out)
}
