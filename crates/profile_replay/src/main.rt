// Replays texts of the interchange profile: reads a list of them from standard input and writes the answer to each as one line, in the line
// program's form. The base is 2024-03-13 09:30:45.000000007 at offset -05:30, so that a clock that was kept would show. compare/profile_list
// writes both the list in `stdin` and the expected lines in `stdout`: the answers come from days counted one by one, and no function of ours
// is called for them. So a reader that departs from them fails the gate.
//
// A line is a text, a tab, and the reason why it is in the list, which is skipped; a line without a tab is a heading and is written as it is. In
// a text, `{N}` is the byte of that number and `{N:PART}` is N times PART, without a brace (`replay_lines`). A line of 4096 bytes or more and a
// text that is longer than 8192 bytes are answered by 99, which is no text's answer.
#![tactic(auto)]

use arrayvec::ArrayVec;
use extended::{DateParts, ExtendedDateTime, TimeParts};
use replay_lines::{Line, Lines};
use std::io::{Stdout, Write};

fn base() -> ExtendedDateTime {
    let date = DateParts {
        year: 2024,
        month: 3,
        day: 13,
    };
    let time = TimeParts {
        hour: 9,
        minute: 30,
        second: 45,
        nanosecond: 7,
    };
    extended::from_parts(date, time, -19800)
}

// The answer to a text.
fn write_answer(out: &mut Stdout, text: &[u8]) -> std::io::Result<()> {
    let mut answer = [0; line_answers::LONGEST_ANSWER];
    let n = line_answers::put_first(text_profile::read_profile(text, base()), &mut answer);
    out.write_all(&answer[..n])
}

// What is written for a line: a heading, or the answer to a text.
fn reply(out: &mut Stdout, line: &ArrayVec<u8, 4096>) -> std::io::Result<()> {
    let expanded = if line.is_full() {
        None
    } else {
        replay_lines::expanded(line.as_slice())
    };
    match expanded {
        Some(Line::Heading(text)) => {
            out.write_all(text.as_slice())?;
            writeln!(out)
        }
        Some(Line::Text(text)) => write_answer(out, text.as_slice()),
        None => writeln!(out, "99"),
    }
}

// A write that fails ends the program. Nothing says that the input ends, so the turns are counted up to a number that no run reaches.
fn replay(out: &mut Stdout) -> std::io::Result<()> {
    let mut lines = Lines::new();
    for _ in 0..u64::MAX {
        let Some(line) = lines.next() else {
            return Ok(());
        };
        reply(out, line)?;
    }
    Ok(())
}

fn main(rt: HostRuntime) {
    let _ = replay(&mut rt.stdout());
}
