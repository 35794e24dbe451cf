// How a run of the line program ends, and the exit status that tells it.

ghost use Rattle.std.specs.Prelude.{◌≡◌};
ghost use Rattle.line_usage.specs.Endings.{status};

use crate::arguments::Wrong;
use std::io;

#[derive(Drop)]
pub enum Ending {
    // All lines are answered, or what the arguments want is said.
    Answered,
    // The base is refused, and its refusal is answered.
    BaseRefused,
    WrongUsage(Wrong),
    ReadFailed(io::Error),
    WriteFailed(io::Error),
}

impl Ending {
    // The exit status.
    pub fn status(&self) -> u8
        ensures { result ≡ status self.now }
    {
        match self {
            Ending::Answered => 0,
            Ending::BaseRefused => 1,
            Ending::WrongUsage(_) => 2,
            Ending::ReadFailed(_) | Ending::WriteFailed(_) => 3,
        }
    }
}
