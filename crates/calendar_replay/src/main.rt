// Replays calls of the calendar: reads one call a line from standard input and writes the reply to
// each as one line. The list in `stdin` and the replies in `stdout` come from the Rust alone
// (compare/README.md), so a reply that differs from the Rust's fails the gate.
//
// A line is a function's name and its arguments in decimal, with one space before each; `line` says
// what other lines mean. A line with a number beyond i64 or without a known name is answered by 99,
// which is no call's answer.
#![tactic(auto)]

mod calls;
mod line;
mod replies;

use line::Line;
use replay_lines::Lines;
use std::io::{Stdout, Write};

// A byte below a space ends a line, byte 10 in a list. What follows the last such byte is no line.
fn take(out: &mut Stdout, line: &mut Line, byte: u8) {
    if byte > b' ' {
        line.push(byte);
        return;
    }
    line.end_word();
    if byte < b' ' {
        // A reply that can't be written is lost, and the next is tried.
        let _ = writeln!(out, "{}", line.reply());
        line.begin();
    }
}

// Nothing says that the input ends, so the turns are counted up to a number that no run reaches.
fn replay(out: &mut Stdout) {
    let mut input = Lines::new();
    let mut line = Line::new();
    for _ in 0..u64::MAX {
        let Some(byte) = input.next_byte() else {
            return;
        };
        take(out, &mut line, byte);
    }
}

fn main(rt: HostRuntime) {
    replay(&mut rt.stdout());
}
