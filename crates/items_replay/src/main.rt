// Replays texts: reads a list of them from standard input and writes the items of each as one line. The expected lines in `stdout` were
// derived by hand from the text of the Rust and of the manual, and 22 from the request for it, so a reader that departs from them fails
// the gate.
//
// A line is a text, a tab, and the reason why it is in the list, which is skipped; a line without a tab is a heading and is written as it is. In
// a text, `{N}` is the byte of that number and `{N:PART}` is N times PART, without a brace (`replay_lines`). A text that is longer than 8192
// bytes is answered by 99, which is no text's answer. The list has room for 65536 bytes.
#![tactic(auto)]

mod replies;
mod shown;

use replay_lines::Line;
use std::io::{Stdout, Write};

// What is written for a line: a heading, or the items of a text.
fn reply(out: &mut Stdout, line: &[u8]) -> std::io::Result<()> {
    match replay_lines::expanded(line) {
        Some(Line::Heading(text)) => out.write_all(text.as_slice())?,
        Some(Line::Text(text)) => replies::write_items(out, text.as_slice())?,
        None => write!(out, "99")?,
    }
    writeln!(out)
}

// What can't be written of a line is lost, and the next line is tried.
fn replay(out: &mut Stdout) {
    let mut list = io::large_buffer();
    let n = io::read_full(0, &mut list);
    for line in list[..n].split_inclusive(|byte| *byte == b'\n') {
        // What follows the last byte 10 is no line.
        if let Some(line) = line.strip_suffix(b"\n") {
            let _ = reply(out, line);
        }
    }
}

fn main(rt: HostRuntime) {
    replay(&mut rt.stdout());
}
