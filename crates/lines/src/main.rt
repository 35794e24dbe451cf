// The line program. Line 1 of standard input is the base, read under 1970-01-01 00:00:00 at offset 0; each later line is a text, read
// under the base, and its answer is written to standard output as one line: number 0 and the written record, or number and place. A
// refused base is answered so too, and ends the program. With `--base TEXT` the base is that text, and line 1 is a text as the others.
//
// Byte 10 ends a line; bytes after the last one are a line too. The program has two buffers of 65536 bytes, and of a line that has not
// ended it keeps at most 4097 bytes: enough to refuse it. Answers are written before the next read.
//
// A read that a signal interrupts is made again. Any other failed read or write ends the program with one line on standard error; a line
// that has not ended by then is not answered. The exit status tells how the run ended: `line_usage`.

#![tactic(auto)]

ghost use Rattle.std.specs.Prelude.{◌≡◌, ◌<◌, ◌≤◌, ◌↔◌, IsOk};
ghost use Rattle.line_usage.specs.declared.ending.Ending.TheVariants.{Answered};

use extended::ExtendedDateTime;
use line_usage::arguments::{self, Wanted, Wrong};
use line_usage::ending::Ending;
use std::io::{ErrorKind, IsTerminal, Read, Stdin, Stdout, Write};
use std::process::ExitCode;

// The version of the whole repository.
const VERSION: &str = "2.3.0";

const HELP: &str = "usage: seqtullo [--base TEXT | --help | --version]

Reads lines from standard input and writes an answer to each. Line 1 is the
base, a text read under 1970-01-01 00:00:00 at offset 0; an empty line 1 is that
moment. Each later line is a text, read under the base. An answer is 0 and the
record, or the number and the place of a refusal.

--base TEXT   the base is TEXT, and line 1 is a text as the others
--help        this page
--version     the version

exit status: 0 all lines are answered, 1 the base is refused, 2 wrong usage,
3 reading or writing failed, 4 the program could not be built.
";

const HINT: &str =
    "seqtullo: line 1 is the base (an empty one is 1970-01-01), each later line a text; --help says more";

#[derive(Drop)]
struct Program {
    stdin: Stdin,
    stdout: Stdout,
    input: [u8; 65536],
    output: [u8; 65536],
    // What line 1 or the argument gave, once it has been read.
    base: Option<ExtendedDateTime>,
    // The bytes of the input buffer that are read and not answered.
    from: usize,
    end: usize,
    // There may be more input.
    more: bool,
}

// The arguments are read here and not by the script `seqtullo`, so that the built program alone has the same usage.
fn main(rt: HostRuntime) -> ExitCode {
    let mut program = Program {
        stdin: rt.stdin(),
        stdout: rt.stdout(),
        input: [0; 65536],
        output: [0; 65536],
        base: None,
        from: 0,
        end: 0,
        more: true,
    };
    let ending = match arguments::read(&rt, &mut program.input) {
        Ok(Wanted::Lines) => {
            if program.stdin.is_terminal() {
                // a hint that can't be written is no failure
                let _ = rt.eprintln(HINT);
            }
            program.run()
        }
        Ok(Wanted::LinesUnder(length)) => program.run_under(length),
        Ok(Wanted::Help) => said(rt.print(HELP)),
        Ok(Wanted::Version) => said(println!(rt; "seqtullo {}", VERSION)),
        Err(wrong) => Ending::WrongUsage(wrong),
    };
    tell(&ending, &rt);
    ExitCode::from(ending.status())
}

// Says on standard error what failed. What can't be written there is lost: the status still tells it.
fn tell(ending: &Ending, rt: &impl Eprint) {
    let _ = match ending {
        Ending::Answered | Ending::BaseRefused => Ok(()),
        Ending::WrongUsage(Wrong::Unknown(i)) => {
            eprintln!(rt;
                "seqtullo: argument {} is unknown; --help lists the arguments",
                i
            )
        }
        Ending::WrongUsage(Wrong::NoText) => {
            eprintln!(rt; "seqtullo: --base needs a text; --help lists the arguments")
        }
        Ending::ReadFailed(why) => {
            eprintln!(rt; "seqtullo: reading standard input failed: {}", why)
        }
        Ending::WriteFailed(why) => {
            eprintln!(rt; "seqtullo: writing standard output failed: {}", why)
        }
    };
}

// How a run ends that only says something.
fn said(written: std::io::Result<()>) -> Ending
    ensures { result ≡ Answered ↔ IsOk written }
{
    match written {
        Ok(()) => Ending::Answered,
        Err(why) => Ending::WriteFailed(why),
    }
}

// A method that answers `Err` leaves nothing to do.
impl Program {
    // Nothing says that the input ends, so the turns are counted up to a number that no run reaches.
    fn run(&mut self) -> Ending
        requires { (self.old.from ≤ self.old.end) × (self.old.end ≤ 65536) }
    {
        for _ in 0..u64::MAX {
            if let Err(ending) = self.turn() {
                return ending;
            }
        }
        Ending::Answered
    }

    // The base is at the front of the input buffer, and nothing is read yet.
    fn run_under(&mut self, length: usize) -> Ending
        requires { length ≤ 65536 }
    {
        self.from = 0;
        self.end = 0;
        match self.read_base(0, length) {
            Ok(()) => self.run(),
            Err(ending) => ending,
        }
    }

    // Takes what is read, as far as it goes: answers whole lines, and reads on where none is left.
    fn turn(&mut self) -> Result<(), Ending>
        requires { (self.old.from ≤ self.old.end) × (self.old.end ≤ 65536) }
        ensures { (self.new.from ≤ self.new.end) × (self.new.end ≤ 65536) }
    {
        let Some(base) = self.base else {
            return self.begin();
        };
        let (from, end) = (self.from, self.end);
        let Program { input, output, .. } = self;
        let held = &input[from..end];
        let progress = line_chunks::put_answers(held, base, output);
        self.from += progress.taken;
        self.write(progress.used)?;
        if progress.full {
            return Ok(());
        }
        self.read_on()
    }

    // Reads line 1, the base, or reads on where it has not ended.
    fn begin(&mut self) -> Result<(), Ending>
        requires { (self.old.from ≤ self.old.end) × (self.old.end ≤ 65536) }
        ensures { (self.new.from ≤ self.new.end) × (self.new.end ≤ 65536) }
    {
        let held = &self.input[self.from..self.end];
        let line = line_ends::first_line_end(held);
        if line == held.len() {
            return self.read_on();
        }
        let from = self.from;
        self.from += line + 1;
        self.read_base(from, from + line)
    }

    // Reads the base from the input buffer, or answers its refusal.
    fn read_base(&mut self, from: usize, end: usize) -> Result<(), Ending>
        requires { (from ≤ end) × (end ≤ 65536) }
        ensures { (self.new.from ≡ self.old.from) × (self.new.end ≡ self.old.end) }
    {
        match text_reader::read_text(&self.input[from..end], line_chunks::epoch()) {
            Ok(base) => {
                self.base = Some(base);
                Ok(())
            }
            refused => {
                let n = line_answers::put_first(refused, &mut self.output);
                self.write(n)?;
                Err(Ending::BaseRefused)
            }
        }
    }

    // Writes the front of the output buffer.
    fn write(&mut self, n: usize) -> Result<(), Ending>
        requires { n ≤ 65536 }
        ensures { (self.new.from ≡ self.old.from) × (self.new.end ≡ self.old.end) }
    {
        match self.stdout.write_all(&self.output[..n]) {
            Ok(()) => Ok(()),
            Err(why) => Err(Ending::WriteFailed(why)),
        }
    }

    // Keeps the line that has not ended, at the front, and reads after it. The end of the input ends the line.
    fn read_on(&mut self) -> Result<(), Ending>
        requires { (self.old.from ≤ self.old.end) × (self.old.end ≤ 65536) }
        ensures { (self.new.from ≤ self.new.end) × (self.new.end ≤ 65536) }
    {
        if !self.more {
            return Err(Ending::Answered);
        }
        let have = line_ends::keep(&mut self.input, self.from, self.end);
        self.from = 0;
        self.end = have;
        match self.stdin.read(&mut self.input[have..]) {
            Ok(0) => self.end_input(),
            Ok(n) => {
                self.end = have + n;
                Ok(())
            }
            // the next turn reads again
            Err(why) if why.kind() == ErrorKind::Interrupted => Ok(()),
            Err(why) => Err(Ending::ReadFailed(why)),
        }
    }

    // Ends the line that has not ended, if there is one.
    fn end_input(&mut self) -> Result<(), Ending>
        requires { (self.old.from ≡ 0) × (self.old.end < 65536) }
        ensures { (self.new.from ≤ self.new.end) × (self.new.end ≤ 65536) }
    {
        self.more = false;
        if self.end == 0 {
            return Err(Ending::Answered);
        }
        self.input[self.end] = b'\n';
        self.end += 1;
        Ok(())
    }
}
