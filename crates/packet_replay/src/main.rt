// Replays packets: reads a list of them from standard input and writes the answer to each as one line, in the line program's form. The base is
// Wednesday 2024-03-13 09:30:00 at offset 0. The expected lines in `stdout` were derived by hand from what docs/SCOPE.md promises ('The
// packet', 'Rules and building'), so a reader that departs from them fails the gate.
//
// A line is a packet in hexadecimal, two digits a byte, a tab, and the reason why it is in the list, which is skipped; a byte in front of the
// tab that is no such digit is skipped too. A line without a tab is a heading and is written as it is. The list has room for 65536 bytes, a
// packet for 4096.
#![tactic(auto)]

use arrayvec::ArrayVec;
use extended::{DateParts, ExtendedDateTime, TimeParts};
use std::io::{Stdout, Write};

fn base() -> ExtendedDateTime {
    let date = DateParts {
        year: 2024,
        month: 3,
        day: 13,
    };
    let time = TimeParts {
        hour: 9,
        minute: 30,
        second: 0,
        nanosecond: 0,
    };
    extended::from_parts(date, time, 0)
}

// The value of a hexadecimal digit.
fn digit(byte: u8) -> Option<u8> {
    match byte {
        b'0'..=b'9' => Some(byte - b'0'),
        b'a'..=b'f' => Some(10 + (byte - b'a')),
        _ => None,
    }
}

// The bytes that digits are, as many as there is room for.
fn packet_of(digits: &[u8]) -> ArrayVec<u8, 4096> {
    let mut packet = ArrayVec::new();
    // The first digit of a byte.
    let mut first = None;
    for byte in digits {
        let Some(value) = digit(*byte) else {
            continue;
        };
        match first {
            None => first = Some(value),
            Some(high) => {
                if packet.try_push(high << 4 | value).is_err() {
                    break;
                }
                first = None;
            }
        }
    }
    packet
}

// What is written for a line: a heading, or the answer to a packet.
fn reply(out: &mut Stdout, line: &[u8]) -> std::io::Result<()> {
    let Some(tab) = line.iter().position(|byte| *byte == b'\t') else {
        out.write_all(line)?;
        return out.write_all(b"\n");
    };
    let packet = packet_of(&line[..tab]);
    let mut answer = [0; line_answers::LONGEST_ANSWER];
    let n = line_answers::put_first(packet::read_packet(packet.as_slice(), base()), &mut answer);
    out.write_all(&answer[..n])
}

// What can't be written of a line is lost, and the next line is tried.
fn replay(out: &mut Stdout) {
    let mut list = io::large_buffer();
    let n = io::read_full(0, &mut list);
    for line in list[..n].split_inclusive(|byte| *byte == b'\n') {
        // What follows the last byte 10 is no line.
        if let Some(line) = line.strip_suffix(b"\n") {
            let _ = reply(out, line);
        }
    }
}

fn main(rt: HostRuntime) {
    replay(&mut rt.stdout());
}
