// What is written of an item:
//
// - `date 2024-03-13`, or `date 03-13` without a year, whose digits are as few as it needs;
// - `time 09:30:00`, then its nanoseconds unless they are 0 and its offset if it has one: `time 09:30:00 500000000ns +02:00`;
// - a date and a time in one item have `with` between them;
// - `relative`, the unit and the amount, as `relative days -1`.
use dates::date::Date;
use items::Item;
use relative::Relative;
use std::fmt;
use times::offset::Offset;
use times::time::Time;

// A part of an item, to be written.
#[derive(Clone, Copy)]
pub struct Shown<T>(pub T);

impl fmt::Display for Shown<Item> {
    fn fmt<W: fmt::Write>(&self, f: &mut fmt::Formatter<W>) -> fmt::Result {
        match self.0 {
            Item::DateTime(v) => write!(f, "{} with {}", Shown(v.date), Shown(v.time)),
            Item::Date(date) => write!(f, "{}", Shown(date)),
            Item::Time(time) => write!(f, "{}", Shown(time)),
            Item::Relative(v) => write!(f, "{}", Shown(v)),
            // The kinds that no text has.
            _ => f.write_str("other"),
        }
    }
}

impl fmt::Display for Shown<Date> {
    fn fmt<W: fmt::Write>(&self, f: &mut fmt::Formatter<W>) -> fmt::Result {
        let date = self.0;
        f.write_str("date ")?;
        if let Some(year) = date.year {
            write!(f, "{year}-")?;
        }
        write!(f, "{:02}-{:02}", date.month, date.day)
    }
}

impl fmt::Display for Shown<Time> {
    fn fmt<W: fmt::Write>(&self, f: &mut fmt::Formatter<W>) -> fmt::Result {
        let time = self.0;
        write!(
            f,
            "time {:02}:{:02}:{:02}{}",
            time.hour,
            time.minute,
            time.second,
            Nanoseconds(time.nanosecond)
        )?;
        if let Some(offset) = time.offset {
            write!(f, "{}", Shown(offset))?;
        }
        Ok(())
    }
}

impl fmt::Display for Shown<Offset> {
    fn fmt<W: fmt::Write>(&self, f: &mut fmt::Formatter<W>) -> fmt::Result {
        let offset = self.0;
        let sign = if offset.negative { '-' } else { '+' };
        write!(f, " {sign}{:02}:{:02}", offset.hours, offset.minutes)
    }
}

impl fmt::Display for Shown<Relative> {
    fn fmt<W: fmt::Write>(&self, f: &mut fmt::Formatter<W>) -> fmt::Result {
        match self.0 {
            Relative::Years(n) => write!(f, "relative years {n:+}"),
            Relative::Months(n) => write!(f, "relative months {n:+}"),
            Relative::Days(n) => write!(f, "relative days {n:+}"),
            Relative::Hours(n) => write!(f, "relative hours {n:+}"),
            Relative::Minutes(n) => write!(f, "relative minutes {n:+}"),
            Relative::Seconds(n, nanosecond) => {
                write!(f, "relative seconds {n:+}{}", Nanoseconds(nanosecond))
            }
        }
    }
}

// Nanoseconds after what is written, unless they are 0.
#[derive(Clone, Copy)]
struct Nanoseconds(u32);

impl fmt::Display for Nanoseconds {
    fn fmt<W: fmt::Write>(&self, f: &mut fmt::Formatter<W>) -> fmt::Result {
        match self.0 {
            0 => Ok(()),
            n => write!(f, " {n}ns"),
        }
    }
}
