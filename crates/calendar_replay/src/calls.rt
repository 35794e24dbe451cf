// A call, made. The functions for hosts have their names without `seqtullo_`, the others those of the crates `extended` and `moments`.
use crate::line::Arguments;
use crate::replies::Reply;
use extended::{DateParts, ExtendedDateTime, TimeParts};

// Makes a call, which the first eight bytes of its name tell. A record takes the first eight arguments.
pub fn answer(name: &str, a: &Arguments) -> Reply {
    let r = extended::from_parts(date(a), time(a), a.at(7));
    match name {
        "is_leap_" => Reply::Number(u32::from(extended::is_leap_year(a.at(0)))),
        "days_in_" => Reply::Number(u32::from(extended::days_in_month(a.at(0), a.at(1)))),
        "from_uni" => Reply::Made(moments::from_unix_seconds(a.at(0), a.at(1), a.at(2))),
        "unix_sec" => Reply::Count(moments::unix_seconds(r)),
        "weekday" => Reply::Count(moments::weekday_monday0(r).map(i64::from)),
        "weekday_" => Reply::Count(moments::weekday_sunday0(r).map(i64::from)),
        "day_of_y" => Reply::Count(moments::day_of_year(r).map(i64::from)),
        "add_days" => Reply::Made(sums::checked_add_days(r, a.at(8))),
        "add_hour" => Reply::Made(sums::checked_add_hours(r, a.at(8))),
        "add_minu" => Reply::Made(sums::checked_add_minutes(r, a.at(8))),
        "add_seco" => Reply::Made(moments::checked_add_seconds(r, a.at(8), a.at(9))),
        "add_year" => Reply::Made(sums::checked_add_years(r, a.at(8))),
        "add_mont" => Reply::Made(sums::checked_add_months(r, a.at(8))),
        "with_off" => Reply::Made(r.with_offset(a.at(8))),
        "with_dat" => Reply::Made(r.with_date(a.at(8), a.at(9), a.at(10))),
        "with_tim" => Reply::Made(r.with_time(a.at(8), a.at(9), a.at(10), a.at(11))),
        "new" => Reply::Made(ExtendedDateTime::new(date(a), time(a), a.at(7))),
        _ => Reply::Unknown,
    }
}

fn date(a: &Arguments) -> DateParts {
    DateParts {
        year: a.at(0),
        month: a.at(1),
        day: a.at(2),
    }
}

fn time(a: &Arguments) -> TimeParts {
    TimeParts {
        hour: a.at(3),
        minute: a.at(4),
        second: a.at(5),
        nanosecond: a.at(6),
    }
}
