// What the items of a text are, as in items/mod.rs and combined.rs, and the kinds of items that come by packet only. The definitions and laws of
// the reader of an item are here, the theorems on each form among them; the reader is in `item_readers`.

#![tactic(auto)]

pub mod combined;

ghost use Rattle.std.specs.Prelude.{◌≡◌};
ghost use Rattle.items.specs.Items.{day_index};

use crate::combined::DateTime;
use dates::date::Date;
use relative::Relative;
use times::offset::Offset;
use times::time::Time;

#[derive(Clone, Copy)]
pub enum Day {
    Monday,
    Tuesday,
    Wednesday,
    Thursday,
    Friday,
    Saturday,
    Sunday,
}

#[derive(Clone, Copy)]
pub struct Weekday {
    pub offset: i32,
    pub day: Day,
}

// Where the digits of a pure number are, in the digits that come with the items.
#[derive(Clone, Copy)]
pub struct Pure {
    pub start: u16,
    pub length: u16,
}

#[derive(Clone, Copy)]
pub enum Item {
    DateTime(DateTime),
    Date(Date),
    Time(Time),
    Weekday(Weekday),
    Relative(Relative),
    Offset(Offset),
    // The military letter `j`, local time: a zone without an offset of its own.
    LocalZone,
    Pure(Pure),
}

// Days from Monday, 0. It is public, with a promise of its own.
pub fn day_index(day: Day) -> u8
    ensures { result ≡ day_index day }
{
    day as u8
}
