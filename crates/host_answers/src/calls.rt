// The calls that need no reader, in the header's order. Each takes any arguments.
ghost use Rattle.std.specs.Prelude.{◌≡◌, length};
ghost use Rattle.extended.specs.Calendar.{month_days};
ghost use Rattle.extended.specs.Extended.{make, date, time, accept, from_unix_seconds, unix_seconds, add_days, add_hours, add_minutes, add_seconds, add_years, add_months, weekday_monday0, day_of_year};
ghost use Rattle.writer.specs.Writer.{written, bytes_of, written_answer, over};
ghost use Rattle.board.specs.Board.{join, leave, next, answered, run_joined, run_left};
ghost use Rattle.host_answers.specs.Hosts.{record_answer, moment_answer, number_answer, board_answer};

use crate::{Answer, BoardAnswer, Moment, Number, Record};
use board::Deadline;
use extended::{DateParts, ExtendedDateTime, TimeParts};
use writer::Written;

// Writes the record's text to the front of `out`; a refusal writes nothing.
#[tactic(auto, using(writer::proofs::Writing::length_kept))]
pub fn write(record: Record, out: &mut [u8]) -> Written
    ensures value { result ≡ written_answer (written «record» (length out.old)) }
    ensures out_after { out.new ≡ over (bytes_of (written «record» (length out.old))) out.old }
{
    writer::write(record, out).into()
}

// The record of eight numbers, if each is in range.
pub fn new(
    year: u32,
    month: u8,
    day: u8,
    hour: u8,
    minute: u8,
    second: u8,
    nanosecond: u32,
    offset_seconds: i32,
) -> Answer
    ensures { result ≡ record_answer (accept (make (date year month day) (time hour minute second nanosecond) offset_seconds)) }
{
    let date = DateParts { year, month, day };
    let time = TimeParts {
        hour,
        minute,
        second,
        nanosecond,
    };
    ExtendedDateTime::new(date, time, offset_seconds).into()
}

pub fn from_unix_seconds(unix_seconds: i64, nanosecond: u32, offset_seconds: i32) -> Answer
    ensures { result ≡ record_answer (from_unix_seconds unix_seconds nanosecond offset_seconds) }
{
    moments::from_unix_seconds(unix_seconds, nanosecond, offset_seconds).into()
}

pub fn unix_seconds(record: Record) -> Moment
    ensures { result ≡ moment_answer (unix_seconds «record») }
{
    moments::unix_seconds(record).into()
}

pub fn add_days(record: Record, days: i64) -> Answer
    ensures { result ≡ record_answer (add_days «record» days) }
{
    sums::checked_add_days(record, days).into()
}

pub fn add_hours(record: Record, hours: i64) -> Answer
    ensures { result ≡ record_answer (add_hours «record» hours) }
{
    sums::checked_add_hours(record, hours).into()
}

pub fn add_minutes(record: Record, minutes: i64) -> Answer
    ensures { result ≡ record_answer (add_minutes «record» minutes) }
{
    sums::checked_add_minutes(record, minutes).into()
}

pub fn add_seconds(record: Record, seconds: i64, nanoseconds: u32) -> Answer
    ensures { result ≡ record_answer (add_seconds «record» seconds nanoseconds) }
{
    moments::checked_add_seconds(record, seconds, nanoseconds).into()
}

pub fn add_years(record: Record, years: i32) -> Answer
    ensures { result ≡ record_answer (add_years «record» years) }
{
    sums::checked_add_years(record, years).into()
}

pub fn add_months(record: Record, months: i32) -> Answer
    ensures { result ≡ record_answer (add_months «record» months) }
{
    sums::checked_add_months(record, months).into()
}

// 0 for Monday to 6 for Sunday.
pub fn weekday(record: Record) -> Number
    ensures { result ≡ number_answer (weekday_monday0 «record») }
{
    moments::weekday_monday0(record).into()
}

pub fn day_of_year(record: Record) -> Number
    ensures { result ≡ number_answer (day_of_year «record») }
{
    moments::day_of_year(record).into()
}

// 0 for a month outside 1 to 12.
pub fn days_in_month(year: u32, month: u8) -> u8
    ensures { result ≡ month_days year month }
{
    extended::days_in_month(year, month)
}

// Puts a plug-in after the last record of a board.
pub fn board_join(run: &mut [Deadline], count: usize, joining: Deadline) -> BoardAnswer
    ensures value { result ≡ board_answer (answered (join run.old count joining)) }
    ensures run_after { run.new ≡ run_joined run.old count joining }
{
    board::join(run, count, joining).into()
}

// Takes a plug-in off a board.
pub fn board_leave(run: &mut [Deadline], count: usize, id: u32) -> BoardAnswer
    ensures value { result ≡ board_answer (answered (leave run.old count id)) }
    ensures run_after { run.new ≡ run_left run.old count id }
{
    board::leave(run, count, id).into()
}

// How many records are on a board, and the next to stop.
pub fn board_next(run: &[Deadline], count: usize) -> BoardAnswer
    ensures value { result ≡ board_answer (answered (next run.now count)) }
    ensures run_after { run.exit.now ≡ run.entry.now }
{
    board::next(run, count).into()
}
