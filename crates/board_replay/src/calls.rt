// A line as a call: its name and its numbers. A RECORD is an id, a moment and a nanosecond.
//
//   run PLACES            makes a run of this many places, all zeros
//   put PLACE RECORD      writes a record to a place of the run
//   show                  writes the places of the run
//   join COUNT RECORD     these three are the calls of the crate `board`, on the run
//   leave COUNT ID
//   next COUNT
use board::Deadline;
use std::str::{FromStr, Split};

#[derive(Clone, Copy)]
pub enum Call {
    Run(usize),
    Put(usize, Deadline),
    Show,
    Join(usize, Deadline),
    Leave(usize, u32),
    Next(usize),
}

// The call of a line. There is none if its name is unknown, a number is beyond its type, or there are too few or too many of them.
pub fn call_of(line: &[u8]) -> Option<Call> {
    let mut words = str::from_utf8(line).ok()?.split(' ');
    let call = match words.next()? {
        "run" => Call::Run(number(&mut words)?),
        "put" => Call::Put(number(&mut words)?, record(&mut words)?),
        "show" => Call::Show,
        "join" => Call::Join(number(&mut words)?, record(&mut words)?),
        "leave" => Call::Leave(number(&mut words)?, number(&mut words)?),
        "next" => Call::Next(number(&mut words)?),
        _ => return None,
    };
    match words.next() {
        Some(_) => None,
        None => Some(call),
    }
}

fn record(words: &mut Split<'_, char>) -> Option<Deadline> {
    Some(Deadline {
        id: number(words)?,
        moment: number(words)?,
        nanosecond: number(words)?,
    })
}

// The next word as a number of the type.
fn number<T: FromStr>(words: &mut Split<'_, char>) -> Option<T>
where
    T::Err: Drop,
{
    let word = words.next()?;
    // `parse` would take a plus.
    if word.starts_with('+') {
        return None;
    }
    word.parse().ok()
}
