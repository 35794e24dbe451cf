// The library as hosts call it: every function takes any arguments, answers by a number of the table
// of answers, and a refusal carries the blank record, a board's count 0 and zeros, or 0 where a number
// was wanted. What each call answers is in `host_calls`, specs/Calls.antt.
#![tactic(auto)]

ghost use Rattle.std.specs.Prelude.{◌≡◌};
ghost use Rattle.extended.specs.Calendar.{month_days};
ghost use Rattle.host_calls.specs.Calls.{answer, New, FromUnixSeconds, AddDays, AddHours, AddMinutes, AddSeconds, AddYears, AddMonths, ReadText, ReadProfile, ReadPacket, moment_of, number_of, Weekday, DayOfYear, Wrote, board_of, run_after, Join, Leave, Next};

use board::Deadline;
use host_answers::{Answer, BoardAnswer, Moment, Number, Record};
use writer::Written;

#[unsafe(no_mangle)]
pub extern "C" fn seqtullo_new(
    year: u32,
    month: u8,
    day: u8,
    hour: u8,
    minute: u8,
    second: u8,
    nanosecond: u32,
    offset_seconds: i32,
) -> Answer
    ensures { result ≡ answer (New year month day hour minute second nanosecond offset_seconds) }
{
    host_answers::new(
        year,
        month,
        day,
        hour,
        minute,
        second,
        nanosecond,
        offset_seconds,
    )
}

#[unsafe(no_mangle)]
pub extern "C" fn seqtullo_from_unix_seconds(
    unix_seconds: i64,
    nanosecond: u32,
    offset_seconds: i32,
) -> Answer
    ensures { result ≡ answer (FromUnixSeconds unix_seconds nanosecond offset_seconds) }
{
    host_answers::from_unix_seconds(unix_seconds, nanosecond, offset_seconds)
}

#[unsafe(no_mangle)]
pub extern "C" fn seqtullo_unix_seconds(record: Record) -> Moment
    ensures { result ≡ moment_of «record» }
{
    host_answers::unix_seconds(record)
}

#[unsafe(no_mangle)]
pub extern "C" fn seqtullo_add_days(record: Record, days: i64) -> Answer
    ensures { result ≡ answer (AddDays «record» days) }
{
    host_answers::add_days(record, days)
}

#[unsafe(no_mangle)]
pub extern "C" fn seqtullo_add_hours(record: Record, hours: i64) -> Answer
    ensures { result ≡ answer (AddHours «record» hours) }
{
    host_answers::add_hours(record, hours)
}

#[unsafe(no_mangle)]
pub extern "C" fn seqtullo_add_minutes(record: Record, minutes: i64) -> Answer
    ensures { result ≡ answer (AddMinutes «record» minutes) }
{
    host_answers::add_minutes(record, minutes)
}

#[unsafe(no_mangle)]
pub extern "C" fn seqtullo_add_seconds(record: Record, seconds: i64, nanoseconds: u32) -> Answer
    ensures { result ≡ answer (AddSeconds «record» seconds nanoseconds) }
{
    host_answers::add_seconds(record, seconds, nanoseconds)
}

#[unsafe(no_mangle)]
pub extern "C" fn seqtullo_add_years(record: Record, years: i32) -> Answer
    ensures { result ≡ answer (AddYears «record» years) }
{
    host_answers::add_years(record, years)
}

#[unsafe(no_mangle)]
pub extern "C" fn seqtullo_add_months(record: Record, months: i32) -> Answer
    ensures { result ≡ answer (AddMonths «record» months) }
{
    host_answers::add_months(record, months)
}

#[unsafe(no_mangle)]
pub extern "C" fn seqtullo_weekday(record: Record) -> Number
    ensures { result ≡ number_of (Weekday «record») }
{
    host_answers::weekday(record)
}

#[unsafe(no_mangle)]
pub extern "C" fn seqtullo_day_of_year(record: Record) -> Number
    ensures { result ≡ number_of (DayOfYear «record») }
{
    host_answers::day_of_year(record)
}

#[unsafe(no_mangle)]
pub extern "C" fn seqtullo_days_in_month(year: u32, month: u8) -> u8
    ensures { result ≡ month_days year month }
{
    host_answers::days_in_month(year, month)
}

// Reads a text under a base.
#[unsafe(no_mangle)]
pub extern "C" fn seqtullo_read_text(text: &[u8], base: Record) -> Answer
    ensures answered { result ≡ answer (ReadText text.now base) }
    ensures text_after { text.exit.now ≡ text.entry.now }
{
    host_calls::read_text(text, base)
}

// Reads a text of the interchange profile under a base.
#[unsafe(no_mangle)]
pub extern "C" fn seqtullo_read_profile(text: &[u8], base: Record) -> Answer
    ensures answered { result ≡ answer (ReadProfile text.now base) }
    ensures text_after { text.exit.now ≡ text.entry.now }
{
    host_calls::read_profile(text, base)
}

// Reads a packet under a base.
#[unsafe(no_mangle)]
pub extern "C" fn seqtullo_read_packet(packet: &[u8], base: Record) -> Answer
    ensures answered { result ≡ answer (ReadPacket packet.now base) }
    ensures packet_after { packet.exit.now ≡ packet.entry.now }
{
    host_calls::read_packet(packet, base)
}

#[unsafe(no_mangle)]
pub extern "C" fn seqtullo_write(record: Record, out: &mut [u8]) -> Written
    ensures { Wrote «record» out.old result out.new }
{
    host_answers::write(record, out)
}

// Puts a plug-in on a board.
#[unsafe(no_mangle)]
pub extern "C" fn seqtullo_board_join(
    run: &mut [Deadline],
    count: usize,
    joining: Deadline,
) -> BoardAnswer
    ensures answered { result ≡ board_of (Join run.old count joining) }
    ensures run_after { run.new ≡ run_after (Join run.old count joining) }
{
    host_answers::board_join(run, count, joining)
}

// Takes a plug-in off a board.
#[unsafe(no_mangle)]
pub extern "C" fn seqtullo_board_leave(run: &mut [Deadline], count: usize, id: u32) -> BoardAnswer
    ensures answered { result ≡ board_of (Leave run.old count id) }
    ensures run_after { run.new ≡ run_after (Leave run.old count id) }
{
    host_answers::board_leave(run, count, id)
}

// How many plug-ins are on a board, and the next to stop.
#[unsafe(no_mangle)]
pub extern "C" fn seqtullo_board_next(run: &[Deadline], count: usize) -> BoardAnswer
    ensures answered { result ≡ board_of (Next run.now count) }
    ensures run_after { run.exit.now ≡ run_after (Next run.entry.now count) }
{
    host_answers::board_next(run, count)
}
