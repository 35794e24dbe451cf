// The item of the fields of a packet. The definitions and laws are in `packet_fields`.
//
// The item is written again and compared with the fields, so every field and every flag that the item's kind does not use has to be 0.

#![tactic(auto)]

ghost use Rattle.std.specs.Prelude.{◌≡◌};
ghost use Rattle.packet_fields.specs.Fields.{year_of, date_of, offset_of, time_offset_of, time_of, day_of, weekday_of, unit_of, relative_of, item_of, date_in_range, offset_in_range, time_in_range, zone_in_range, pure_in_range, in_range, fitting, unpacked, found_of};

use answers::GNU_MAX_YEAR;
use dates::date::Date;
use items::combined::DateTime;
use items::{Day, Item, Pure, Weekday};
use packet_fields::{Fields, flag, kind, unit};
use relative::Relative;
use times::offset::Offset;
use times::time::Time;

// The item, if the fields are those of one in range.
#[tactic(auto, unfolding(packet_fields::specs::Fields::unpacked))]
pub fn unpack(fields: Fields, used: u16) -> Option<Item>
    ensures { found_of result ≡ unpacked fields used }
{
    fitting(fields, item_of(fields, used)?)
}

// The item by its kind, in range or not. `used`: the digits of the pure numbers before it.
#[tactic(auto, unfolding(packet_fields::specs::Fields::item_of))]
fn item_of(fields: Fields, used: u16) -> Option<Item>
    ensures { found_of result ≡ item_of fields used }
{
    match fields.kind {
        kind::DATE => Some(Item::Date(date_of(fields))),
        kind::TIME => Some(Item::Time(time_of(fields))),
        kind::DATE_TIME => Some(Item::DateTime(DateTime {
            date: date_of(fields),
            time: time_of(fields),
        })),
        kind::WEEKDAY => weekday_of(fields),
        kind::OFFSET => Some(Item::Offset(offset_of(fields))),
        kind::LOCAL_ZONE => Some(Item::LocalZone),
        kind::RELATIVE => relative_of(fields),
        kind::PURE => Some(Item::Pure(Pure {
            start: used,
            length: fields.length,
        })),
        _ => None,
    }
}

#[tactic(auto, unfolding(packet_fields::specs::Fields::year_of))]
fn year_of(fields: Fields) -> Option<u32>
    ensures { result ≡ year_of fields }
{
    (fields.flags & flag::YEAR != 0).then_some(fields.year)
}

#[tactic(auto, unfolding(packet_fields::specs::Fields::date_of))]
fn date_of(fields: Fields) -> Date
    ensures { result ≡ date_of fields }
{
    Date {
        day: fields.day,
        month: fields.month,
        year: year_of(fields),
    }
}

#[tactic(auto, using(crate::proofs::Flags::flag_4))]
fn offset_of(fields: Fields) -> Offset
    ensures { result ≡ offset_of fields }
{
    Offset {
        negative: fields.flags & flag::WEST != 0,
        hours: fields.offset_hours,
        minutes: fields.offset_minutes,
    }
}

#[tactic(auto, using(crate::proofs::Flags::flag_2), unfolding(packet_fields::specs::Fields::time_offset_of))]
fn time_offset_of(fields: Fields) -> Option<Offset>
    ensures { result ≡ time_offset_of fields }
{
    (fields.flags & flag::OFFSET != 0).then_some(offset_of(fields))
}

#[tactic(auto, unfolding(packet_fields::specs::Fields::time_of))]
fn time_of(fields: Fields) -> Time
    ensures { result ≡ time_of fields }
{
    Time {
        hour: fields.hour,
        minute: fields.minute,
        second: fields.second,
        nanosecond: fields.nanosecond,
        offset: time_offset_of(fields),
    }
}

#[tactic(auto, unfolding(packet_fields::specs::Fields::weekday_of))]
fn weekday_of(fields: Fields) -> Option<Item>
    ensures { found_of result ≡ weekday_of fields }
{
    let offset = packet_fields::as_small(fields.amount)?;
    let day = day_of(fields.which)?;
    Some(Item::Weekday(Weekday { offset, day }))
}

#[tactic(auto, unfolding(packet_fields::specs::Fields::relative_of))]
fn relative_of(fields: Fields) -> Option<Item>
    ensures { found_of result ≡ relative_of fields }
{
    if fields.which == unit::SECONDS {
        let seconds = packet_fields::from_twos_complement(fields.amount);
        return Some(Item::Relative(Relative::Seconds(seconds, fields.nanosecond)));
    }
    unit_of(fields.which, packet_fields::as_small(fields.amount)?)
}

#[tactic(auto, unfolding(packet_fields::specs::Fields::fitting))]
fn fitting(fields: Fields, item: Item) -> Option<Item>
    ensures { found_of result ≡ fitting fields item }
{
    (in_range(item) && packet_encode::same(packet_encode::fields_of(item), fields)).then_some(item)
}

// The caller wants an Option: `TryFrom` would have an error, made only to be dropped.
#[tactic(auto, unfolding(packet_fields::specs::Fields::day_of))]
fn day_of(n: u8) -> Option<Day>
    ensures { found_of result ≡ day_of n }
{
    match n {
        0 => Some(Day::Monday),
        1 => Some(Day::Tuesday),
        2 => Some(Day::Wednesday),
        3 => Some(Day::Thursday),
        4 => Some(Day::Friday),
        5 => Some(Day::Saturday),
        6 => Some(Day::Sunday),
        _ => None,
    }
}

#[tactic(auto, unfolding(packet_fields::specs::Fields::unit_of))]
fn unit_of(unit: u8, n: i32) -> Option<Item>
    ensures { found_of result ≡ unit_of unit n }
{
    match unit {
        unit::YEARS => Some(Item::Relative(Relative::Years(n))),
        unit::MONTHS => Some(Item::Relative(Relative::Months(n))),
        unit::DAYS => Some(Item::Relative(Relative::Days(n))),
        unit::HOURS => Some(Item::Relative(Relative::Hours(n))),
        unit::MINUTES => Some(Item::Relative(Relative::Minutes(n))),
        _ => None,
    }
}

#[tactic(auto, unfolding(packet_fields::specs::Fields::in_range))]
fn in_range(item: Item) -> bool
    ensures { result ≡ in_range item }
{
    match item {
        Item::Date(date) => date_in_range(date),
        Item::Time(time) => time_in_range(time),
        Item::DateTime(both) => date_in_range(both.date) && time_in_range(both.time),
        Item::Weekday(_) => true,
        Item::Offset(offset) => zone_in_range(offset),
        Item::LocalZone => true,
        Item::Relative(_) => true,
        Item::Pure(pure) => pure_in_range(pure),
    }
}

#[tactic(auto, unfolding(packet_fields::specs::Fields::date_in_range))]
fn date_in_range(date: Date) -> bool
    ensures { result ≡ date_in_range date.year date.month date.day }
{
    date.year.is_none_or(|year| year <= GNU_MAX_YEAR)
        && date_parts::exists(date.year.unwrap_or(2000), date.month, date.day)
}

#[tactic(auto, unfolding(packet_fields::specs::Fields::time_in_range))]
fn time_in_range(time: Time) -> bool
    ensures { result ≡ time_in_range time }
{
    time.hour <= 23
        && time.minute <= 59
        && time.second <= 59
        && time.nanosecond <= 999999999
        && offset_in_range(time.offset)
}

#[tactic(auto, unfolding(packet_fields::specs::Fields::offset_in_range))]
fn offset_in_range(offset: Option<Offset>) -> bool
    ensures { result ≡ offset_in_range offset }
{
    offset.is_none_or(|o| times::offset::in_range(u64::from(o.hours), u64::from(o.minutes)))
}

#[tactic(auto, unfolding(packet_fields::specs::Fields::zone_in_range))]
fn zone_in_range(zone: Offset) -> bool
    ensures { result ≡ zone_in_range zone }
{
    zone.hours <= 47 && zone.minutes <= 60
}

#[tactic(auto, unfolding(packet_fields::specs::Fields::pure_in_range))]
fn pure_in_range(pure: Pure) -> bool
    ensures { result ≡ pure_in_range pure }
{
    1 <= pure.length && pure.length <= 255
}
