// Replays calls of the board: reads a list of them from standard input and writes the reply to each as one line. The calls share one run of
// places. compare/board_list writes both the list in `stdin` and the expected lines in `stdout`: the replies come from lists in Python, and no
// function of ours is called for them. So a board that departs from them fails the gate.
//
// A line is a call and its numbers in decimal, with one space before each (`calls`); the replies are in `replies`. A line that begins with `#`
// is a heading and is written as it is. A line that is no call, that has a number beyond its type, a place beyond the run or a run of more
// than 140 places, or that has 4096 bytes or more is answered by 99, which is no call's answer.
#![tactic(auto)]

mod calls;
mod replies;
mod run;

use arrayvec::ArrayVec;
use calls::Call;
use replay_lines::Lines;
use run::Run;
use std::io::{Stdout, Write};

// Makes a call on the run and writes its reply.
fn make(out: &mut Stdout, run: &mut Run, call: Call) -> std::io::Result<()> {
    match call {
        Call::Run(places) => replies::write_done(out, run.lend(places)),
        Call::Put(place, record) => replies::write_done(out, run.put(place, record)),
        Call::Show => replies::write_records(out, run.records()),
        Call::Join(count, joining) => replies::write_held(out, run.join(count, joining)),
        Call::Leave(count, id) => replies::write_held(out, run.leave(count, id)),
        Call::Next(count) => replies::write_held(out, run.next(count)),
    }
}

// What is written for a line: a heading, or the reply to a call.
fn reply(out: &mut Stdout, run: &mut Run, line: &ArrayVec<u8, 4096>) -> std::io::Result<()> {
    if line.is_full() {
        return replies::write_unknown(out);
    }
    let line = line.as_slice();
    if line.starts_with(b"#") {
        out.write_all(line)?;
        return writeln!(out);
    }
    match calls::call_of(line) {
        Some(call) => make(out, run, call),
        None => replies::write_unknown(out),
    }
}

// A write that fails ends the program. Nothing says that the input ends, so the turns are counted up to a number that no run reaches.
fn replay(out: &mut Stdout) -> std::io::Result<()> {
    let mut lines = Lines::new();
    let mut run = Run::new();
    for _ in 0..u64::MAX {
        let Some(line) = lines.next() else {
            return Ok(());
        };
        reply(out, &mut run, line)?;
    }
    Ok(())
}

fn main(rt: HostRuntime) {
    let _ = replay(&mut rt.stdout());
}
