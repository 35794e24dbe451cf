// What hosts are answered. Under number 0: a record, a moment, a number, or a board's count and next to stop. A refusal has its number of the
// table of answers, and the blank record, the count 0 and zeros for a board, or 0 where a number was wanted.
//
// `calls` answers the calls that need no reader, `host_calls` those that read; `seqtullo` exports both.
#![tactic(auto)]

mod calls;

ghost use Rattle.std.specs.Prelude.{◌≡◌};
ghost use Rattle.answers.specs.Refusals.{outcome_of, numbered};
ghost use Rattle.host_answers.specs.Hosts.{record_answer, moment_answer, number_answer, board_answer};

use answers::Refusal;
use board::{Deadline, Held};
pub use calls::{
    add_days, add_hours, add_minutes, add_months, add_seconds, add_years, board_join, board_leave,
    board_next, day_of_year, days_in_month, from_unix_seconds, new, unix_seconds, weekday, write,
};
use extended::ExtendedDateTime;

pub type Record = ExtendedDateTime;

// A refusal has its place here too; docs/SCOPE.md, 'Answers by number', says which numbers have one.
#[repr(C)]
#[derive(Clone, Copy)]
pub struct Answer {
    pub number: u32,
    pub place: u32,
    pub record: Record,
}

#[repr(C)]
#[derive(Clone, Copy)]
pub struct Moment {
    pub number: u32,
    pub seconds: i64,
}

#[repr(C)]
#[derive(Clone, Copy)]
pub struct Number {
    pub number: u32,
    pub value: u32,
}

// How many records are on a board, and the next to stop; in a refusal 0 and zeros. A refusal of the board has no place.
#[repr(C)]
#[derive(Clone, Copy)]
pub struct BoardAnswer {
    pub number: u32,
    pub count: u32,
    pub next: Deadline,
}

// The answers under any number, that of a refusal or another: number 0 and what a call gives, or the number and nothing beside it.
#[tactic(auto, unfolding(crate::specs::Hosts::record_answer))]
pub fn record_answer(made: Result<ExtendedDateTime, u32>) -> Answer
    ensures { result ≡ record_answer (numbered made) }
{
    match made {
        Ok(record) => Answer {
            number: 0,
            place: 0,
            record,
        },
        Err(number) => Answer {
            number,
            place: 0,
            record: ExtendedDateTime::blank(),
        },
    }
}

#[tactic(auto, unfolding(crate::specs::Hosts::moment_answer))]
pub fn moment_answer(made: Result<i64, u32>) -> Moment
    ensures { result ≡ moment_answer (numbered made) }
{
    match made {
        Ok(seconds) => Moment { number: 0, seconds },
        Err(number) => Moment { number, seconds: 0 },
    }
}

#[tactic(auto, unfolding(crate::specs::Hosts::number_answer))]
pub fn number_answer(made: Result<u32, u32>) -> Number
    ensures { result ≡ number_answer (numbered made) }
{
    match made {
        Ok(value) => Number { number: 0, value },
        Err(number) => Number { number, value: 0 },
    }
}

impl From<Result<ExtendedDateTime, Refusal>> for Answer {
    ghost from_gives = { λ made answer. answer ≡ record_answer (outcome_of made) };

    fn from(made: Result<ExtendedDateTime, Refusal>) -> Answer {
        record_answer(made.map_err(|refusal| u32::from(refusal)))
    }
}

impl From<Result<i64, Refusal>> for Moment {
    ghost from_gives = { λ made moment. moment ≡ moment_answer (outcome_of made) };

    fn from(made: Result<i64, Refusal>) -> Moment {
        moment_answer(made.map_err(|refusal| u32::from(refusal)))
    }
}

impl From<Result<u32, Refusal>> for Number {
    ghost from_gives = { λ made number. number ≡ number_answer (outcome_of made) };

    fn from(made: Result<u32, Refusal>) -> Number {
        number_answer(made.map_err(|refusal| u32::from(refusal)))
    }
}

impl From<Result<Held, Refusal>> for BoardAnswer {
    ghost from_gives = { λ made answer. answer ≡ board_answer (outcome_of made) };

    #[tactic(auto, unfolding(crate::specs::Hosts::board_answer))]
    fn from(made: Result<Held, Refusal>) -> BoardAnswer {
        match made {
            Ok(held) => BoardAnswer {
                number: 0,
                count: held.count,
                next: held.next.unwrap_or(Deadline::ZEROS),
            },
            Err(refusal) => BoardAnswer {
                number: u32::from(refusal),
                count: 0,
                next: Deadline::ZEROS,
            },
        }
    }
}
