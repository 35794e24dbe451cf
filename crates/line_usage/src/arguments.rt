// What the arguments want of the line program.

ghost use Rattle.std.specs.Prelude.{◌≡◌, ◌≤◌, ℕ, Ok, length, IfSome};
ghost use Rattle.line_usage.specs.declared.arguments.Wanted.TheVariants.{LinesUnder};

use std::env::{Env, FillError};

#[derive(Clone, Copy)]
pub enum Wanted {
    // To read the base from line 1, and the texts after it.
    Lines,
    // To read texts under a base that is at the front of the lent buffer: its length.
    LinesUnder(usize),
    Help,
    Version,
}

#[derive(Clone, Copy)]
pub enum Wrong {
    // An argument that is unknown, or one too many: which one.
    Unknown(usize),
    // `--base` as the last argument.
    NoText,
}

// Reads the arguments into the lent buffer, one after the other.
pub fn read(env: &impl Env, buffer: &mut [u8]) -> Result<Wanted, Wrong>
    ensures { (n : ℕ) → result ≡ Ok (LinesUnder n) → n ≤ length buffer.new }
{
    let Some(length) = argument(env, 1, buffer) else {
        return Ok(Wanted::Lines);
    };
    let (wanted, used) = match &buffer[..length] {
        b"--help" => (Wanted::Help, 1),
        b"--version" => (Wanted::Version, 1),
        b"--base" => match argument(env, 2, buffer) {
            Some(text) => (Wanted::LinesUnder(text), 2),
            None => return Err(Wrong::NoText),
        },
        _ => return Err(Wrong::Unknown(1)),
    };
    // one byte is lent, so that the text of the base stays
    if argument(env, used + 1, &mut [0]).is_some() {
        return Err(Wrong::Unknown(used + 1));
    }
    Ok(wanted)
}

// Copies an argument to the front of the buffer, and answers its length. One that is too long for the buffer counts as filling it, with
// whatever bytes: no known argument and no text that is read is so long.
fn argument(env: &impl Env, i: usize, buffer: &mut [u8]) -> Option<usize>
    ensures { IfSome result (λ n. n ≤ length buffer.new) }
{
    match env.arg(i, buffer) {
        Ok(length) => Some(length),
        Err(FillError::TooLong) => Some(buffer.len()),
        Err(FillError::NotPresent) => None,
    }
}
