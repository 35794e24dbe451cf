// The run of places that the calls are made on.
ghost use Rattle.std.specs.Prelude.{◌≤◌};

use answers::Refusal;
use board::{Deadline, Held};

// More than a board may have, so that a list can have runs of too many places.
const MOST_LENT: usize = 140;

// A struct with an invariant can't lend a slice of its array to be written, so the board is lent a copy, which is then put back.
#[derive(Drop)]
pub struct Run {
    records: [Deadline; MOST_LENT],
    // The run has this many of the records, from the first on.
    places: usize,
    ghost within: { places ≤ 140 },
}

impl Run {
    pub fn new() -> Run {
        Run {
            records: [Deadline::ZEROS; MOST_LENT],
            places: 0,
        }
    }

    // Makes a run of this many places, all zeros, if there is room for it.
    pub fn lend(&mut self, places: usize) -> Option<()> {
        if places > MOST_LENT {
            return None;
        }
        self.records = [Deadline::ZEROS; MOST_LENT];
        self.places = places;
        Some(())
    }

    // Writes a record to a place, if the run has it.
    pub fn put(&mut self, place: usize, record: Deadline) -> Option<()> {
        if place >= self.places {
            return None;
        }
        self.records[place] = record;
        Some(())
    }

    pub fn records(&self) -> &[Deadline] {
        &self.records[..self.places]
    }

    pub fn join(&mut self, count: usize, joining: Deadline) -> Result<Held, Refusal> {
        let mut records = self.records;
        let answer = board::join(&mut records[..self.places], count, joining);
        self.records = records;
        answer
    }

    pub fn leave(&mut self, count: usize, id: u32) -> Result<Held, Refusal> {
        let mut records = self.records;
        let answer = board::leave(&mut records[..self.places], count, id);
        self.records = records;
        answer
    }

    pub fn next(&self, count: usize) -> Result<Held, Refusal> {
        board::next(self.records(), count)
    }
}
