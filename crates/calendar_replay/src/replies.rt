// Replies, written without the line's end: 0 and what the call gives, or the number of its refusal alone.
use answers::Refusal;
use extended::ExtendedDateTime;
use std::fmt;

#[derive(Clone, Copy)]
pub enum Reply {
    // A line that is no call.
    Unknown,
    // A number alone.
    Number(u32),
    // A call that gives a number.
    Count(Result<i64, Refusal>),
    // A call that gives a record.
    Made(Result<ExtendedDateTime, Refusal>),
}

impl fmt::Display for Reply {
    fn fmt<W: fmt::Write>(&self, f: &mut fmt::Formatter<W>) -> fmt::Result {
        match *self {
            // A number that no answer has.
            Reply::Unknown => f.write_str("99"),
            Reply::Number(number) => write!(f, "{number}"),
            Reply::Count(Ok(count)) => write!(f, "0 {count}"),
            // A record has its eight numbers in order.
            Reply::Made(Ok(r)) => write!(
                f,
                "0 {} {} {} {} {} {} {} {}",
                r.year, r.month, r.day, r.hour, r.minute, r.second, r.nanosecond, r.offset_seconds
            ),
            Reply::Count(Err(refusal)) | Reply::Made(Err(refusal)) => {
                write!(f, "{}", u32::from(refusal))
            }
        }
    }
}
