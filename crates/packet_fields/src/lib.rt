// The 28 bytes of a packet's item, read into fields. `packet_decode` makes the item of the fields, `packet_encode` the fields of an item; the
// definitions and laws of all three are here. Three crates for the gate's time alone.

#![tactic(auto)]

ghost use Rattle.std.specs.Prelude.{◌≡◌, ◌+◌, ◌<◌, ℕ, get_or};
ghost use Rattle.packet_fields.specs.Fields.{little, from_twos_complement, twos_complement, small, fields_from, fields_at, found_of, digits_used};

use items::Item;
use std::array;

// What an item is.
pub mod kind {
    pub const DATE: u8 = 1;

    pub const TIME: u8 = 2;

    pub const DATE_TIME: u8 = 3;

    pub const WEEKDAY: u8 = 4;

    pub const OFFSET: u8 = 5;

    pub const LOCAL_ZONE: u8 = 6;

    pub const RELATIVE: u8 = 7;

    pub const PURE: u8 = 8;
}

// What a relative item counts.
pub mod unit {
    pub const YEARS: u8 = 1;

    pub const MONTHS: u8 = 2;

    pub const DAYS: u8 = 3;

    pub const HOURS: u8 = 4;

    pub const MINUTES: u8 = 5;

    pub const SECONDS: u8 = 6;
}

// The bits of `flags`: a date has a year, a time has an offset, an offset is west of UTC.
pub mod flag {
    pub const YEAR: u8 = 1;

    pub const OFFSET: u8 = 2;

    pub const WEST: u8 = 4;
}

#[derive(Clone, Copy, Default, PartialEq, Eq)]
pub struct Fields {
    // One of `kind`.
    pub kind: u8,
    // The weekday from Monday 0, or the `unit` of a relative item.
    pub which: u8,
    pub month: u8,
    pub day: u8,
    pub year: u32,
    pub hour: u8,
    pub minute: u8,
    pub second: u8,
    pub flags: u8,
    pub nanosecond: u32,
    pub offset_hours: u8,
    pub offset_minutes: u8,
    // How many digits a pure number has.
    pub length: u16,
    // As in the bytes, without a sign.
    pub amount: u64,
}

// ---- bytes

// A byte, and 0 after the last.
fn byte_at(bytes: &[u8], at: usize) -> u8
    ensures { result ≡ get_or bytes.now at 0 }
{
    bytes.get(at).copied().unwrap_or(0)
}

// N bytes from a place on, each 0 after the last.
fn row<const N: usize>(bytes: &[u8], at: usize) -> [u8; N]
    requires { at + N < 1099511627780 }
    ensures { (i : ℕ) → i < N → get_or result i 0 ≡ get_or bytes.now (at + i) 0 }
{
    array::from_fn(|i| byte_at(bytes, at + i))
}

// A number of the header.
#[tactic(auto, unfolding(crate::specs::Fields::little))]
pub fn u16_at(bytes: &[u8], at: u8) -> u16
    ensures { result ≡ little 2 at bytes.now }
{
    u16::from_le_bytes(row(bytes, usize::from(at)))
}

#[tactic(auto, unfolding(crate::specs::Fields::from_twos_complement))]
pub fn from_twos_complement(n: u64) -> i64
    ensures { result ≡ from_twos_complement n }
{
    n.cast_signed()
}

#[tactic(auto, unfolding(crate::specs::Fields::twos_complement))]
pub fn twos_complement(n: i64) -> u64
    ensures { result ≡ twos_complement n }
{
    n.cast_unsigned()
}

// The signed number, if an i32 can represent it.
#[tactic(auto, unfolding(crate::specs::Fields::small))]
pub fn as_small(n: u64) -> Option<i32>
    ensures { found_of result ≡ small n }
{
    i32::try_from(from_twos_complement(n)).ok()
}

#[tactic(auto, unfolding(crate::specs::Fields::fields_from, crate::specs::Fields::little))]
fn fields_from(bytes: &[u8], at: usize) -> Fields
    requires { at < 549755813888 }
    ensures { result ≡ fields_from bytes.now at }
{
    let kind = byte_at(bytes, at);
    let which = byte_at(bytes, at + 1);
    let month = byte_at(bytes, at + 2);
    let day = byte_at(bytes, at + 3);
    let year = u32::from_le_bytes(row(bytes, at + 4));
    let hour = byte_at(bytes, at + 8);
    let minute = byte_at(bytes, at + 9);
    let second = byte_at(bytes, at + 10);
    let flags = byte_at(bytes, at + 11);
    let nanosecond = u32::from_le_bytes(row(bytes, at + 12));
    let offset_hours = byte_at(bytes, at + 16);
    let offset_minutes = byte_at(bytes, at + 17);
    let length = u16::from_le_bytes(row(bytes, at + 18));
    let amount = u64::from_le_bytes(row(bytes, at + 20));
    Fields {
        kind,
        which,
        month,
        day,
        year,
        hour,
        minute,
        second,
        flags,
        nanosecond,
        offset_hours,
        offset_minutes,
        length,
        amount,
    }
}

// The fields of the item of an index.
pub fn fields_at(bytes: &[u8], index: u32) -> Fields
    ensures { result ≡ fields_at bytes.now index }
{
    fields_from(bytes, 8 + 28 * (index as usize))
}

// How many digits an item uses.
pub fn digits_used(item: Item) -> usize
    ensures { (result ≡ digits_used item) × (result < 65536) }
{
    match item {
        Item::Pure(pure) => usize::from(pure.length),
        _ => 0,
    }
}
