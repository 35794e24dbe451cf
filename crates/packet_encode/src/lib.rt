// The fields of an item, as a packet has them, and whether two rows of fields are the same. The definitions and laws are in `packet_fields`.

#![tactic(auto)]

ghost use Rattle.std.specs.Prelude.{◌≡◌, ◌≤◌};
ghost use Rattle.items.specs.Items.{day_index};
ghost use Rattle.packet_fields.specs.Fields.{twos_complement, sign_flag, with_date, with_time, of_zone, counted, of_relative, of_pure, fields_of, same};

use dates::date::Date;
use items::{Item, Pure, Weekday};
use packet_fields::{Fields, flag, kind, unit};
use relative::Relative;
use times::offset::Offset;
use times::time::Time;

// The fields of an item; those that its kind does not use are 0.
#[tactic(auto, unfolding(packet_fields::specs::Fields::fields_of))]
pub fn fields_of(item: Item) -> Fields
    ensures { result ≡ fields_of item }
{
    match item {
        Item::Date(date) => with_date(kind::DATE, date),
        Item::Time(time) => with_time(counted(kind::TIME, 0, 0, 0), time),
        Item::DateTime(both) => with_time(with_date(kind::DATE_TIME, both.date), both.time),
        Item::Weekday(weekday) => of_weekday(weekday),
        Item::Offset(offset) => of_zone(offset),
        Item::LocalZone => counted(kind::LOCAL_ZONE, 0, 0, 0),
        Item::Relative(relative) => of_relative(relative),
        Item::Pure(pure) => of_pure(pure),
    }
}

fn counted(kind: u8, which: u8, amount: u64, nanosecond: u32) -> Fields
    ensures { (result ≡ counted kind which amount nanosecond) × (result.flags ≤ 1) }
{
    Fields {
        kind,
        which,
        amount,
        nanosecond,
        ..Fields::default()
    }
}

#[tactic(auto, unfolding(packet_fields::specs::Fields::with_date))]
fn with_date(kind: u8, date: Date) -> Fields
    ensures { (result ≡ with_date kind date) × (result.flags ≤ 1) }
{
    Fields {
        kind,
        month: date.month,
        day: date.day,
        year: date.year.unwrap_or(0),
        flags: date.year.map_or(0, |_| flag::YEAR),
        ..Fields::default()
    }
}

#[tactic(auto, unfolding(packet_fields::specs::Fields::with_time))]
fn with_time(fields: Fields, time: Time) -> Fields
    requires { fields.flags ≤ 1 }
    ensures { result ≡ with_time fields time }
{
    let flags = time
        .offset
        .map_or(0, |o| flag::OFFSET + sign_flag(o.negative));
    Fields {
        hour: time.hour,
        minute: time.minute,
        second: time.second,
        flags: fields.flags + flags,
        nanosecond: time.nanosecond,
        offset_hours: time.offset.map_or(0, |o| o.hours),
        offset_minutes: time.offset.map_or(0, |o| o.minutes),
        ..fields
    }
}

#[tactic(auto, unfolding(packet_fields::specs::Fields::of_zone))]
fn of_zone(zone: Offset) -> Fields
    ensures { result ≡ of_zone zone }
{
    Fields {
        kind: kind::OFFSET,
        flags: sign_flag(zone.negative),
        offset_hours: zone.hours,
        offset_minutes: zone.minutes,
        ..Fields::default()
    }
}

fn of_weekday(weekday: Weekday) -> Fields
    ensures { result ≡ counted 4 (day_index weekday.day) (twos_complement weekday.offset) 0 }
{
    let amount = packet_fields::twos_complement(i64::from(weekday.offset));
    counted(kind::WEEKDAY, items::day_index(weekday.day), amount, 0)
}

#[tactic(auto, unfolding(packet_fields::specs::Fields::of_relative))]
fn of_relative(relative: Relative) -> Fields
    ensures { result ≡ of_relative relative }
{
    match relative {
        Relative::Years(n) => of_unit(unit::YEARS, n),
        Relative::Months(n) => of_unit(unit::MONTHS, n),
        Relative::Days(n) => of_unit(unit::DAYS, n),
        Relative::Hours(n) => of_unit(unit::HOURS, n),
        Relative::Minutes(n) => of_unit(unit::MINUTES, n),
        Relative::Seconds(n, nanosecond) => of_seconds(n, nanosecond),
    }
}

fn of_unit(unit: u8, n: i32) -> Fields
    ensures { result ≡ counted 7 unit (twos_complement n) 0 }
{
    counted(
        kind::RELATIVE,
        unit,
        packet_fields::twos_complement(i64::from(n)),
        0,
    )
}

fn of_seconds(n: i64, nanosecond: u32) -> Fields
    ensures { result ≡ counted 7 6 (twos_complement n) nanosecond }
{
    let amount = packet_fields::twos_complement(n);
    counted(kind::RELATIVE, unit::SECONDS, amount, nanosecond)
}

fn of_pure(pure: Pure) -> Fields
    ensures { result ≡ of_pure pure }
{
    Fields {
        kind: kind::PURE,
        length: pure.length,
        ..Fields::default()
    }
}

// The flag of an offset.
fn sign_flag(negative: bool) -> u8
    ensures { (result ≡ sign_flag negative) × (result ≤ 4) }
{
    if negative { flag::WEST } else { 0 }
}

#[tactic(auto, unfolding(packet_fields::specs::Fields::same))]
pub fn same(a: Fields, b: Fields) -> bool
    ensures { result ≡ same a b }
{
    a == b
}
