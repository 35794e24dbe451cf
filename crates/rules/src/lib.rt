// Which items may be combined, as in items/builder.rs. `DateTimeBuilder` contains at most one item of each kind but the relative one, and
// goes by value. Items are added one after the other in `gather`; the loops are in `text_general` and `packet`;
// building is in `builder`.

#![tactic(auto)]

ghost use Rattle.std.specs.Prelude.{◌≡◌, is_some};
ghost use Rattle.answers.specs.Refusals.{outcome_of};
ghost use Rattle.rules.specs.Rules.{has_offset, empty, need_midnight, set_date, set_time, set_weekday, set_zone, set_date_time};

use answers::Refusal;
use dates::date::Date;
use items::Weekday;
use items::combined::DateTime;
use times::offset::Offset;
use times::time::Time;

// A zone item: an offset, or the military letter `j` for local time, which has no offset of its own.
#[derive(Clone, Copy)]
pub enum Zone {
    Offset(Offset),
    Local,
}

#[derive(Clone, Copy)]
pub struct DateTimeBuilder {
    pub date: Option<Date>,
    pub time: Option<Time>,
    pub weekday: Option<Weekday>,
    pub zone: Option<Zone>,
}

impl DateTimeBuilder {
    pub fn new() -> DateTimeBuilder
        ensures { result ≡ empty }
    {
        DateTimeBuilder {
            date: None,
            time: None,
            weekday: None,
            zone: None,
        }
    }

    #[tactic(auto, unfolding(crate::specs::Rules::set_date))]
    pub fn set_date(self, date: Date) -> Result<DateTimeBuilder, Refusal>
        ensures { outcome_of result ≡ set_date self date }
    {
        if self.date.is_some() {
            return Err(Refusal::Twice);
        }
        Ok(DateTimeBuilder {
            date: Some(date),
            ..self
        })
    }

    #[tactic(auto, unfolding(crate::specs::Rules::set_time))]
    pub fn set_time(self, time: Time) -> Result<DateTimeBuilder, Refusal>
        ensures { outcome_of result ≡ set_time self time }
    {
        if self.time.is_some() {
            return Err(Refusal::Twice);
        }
        if self.has_zone() && time.offset.is_some() {
            return Err(Refusal::Rival);
        }
        Ok(DateTimeBuilder {
            time: Some(time),
            ..self
        })
    }

    #[tactic(auto, unfolding(crate::specs::Rules::set_weekday))]
    pub fn set_weekday(self, weekday: Weekday) -> Result<DateTimeBuilder, Refusal>
        ensures { outcome_of result ≡ set_weekday self weekday }
    {
        if self.weekday.is_some() {
            return Err(Refusal::Twice);
        }
        Ok(DateTimeBuilder {
            weekday: Some(weekday),
            ..self
        })
    }

    // The Rust's `set_offset` and `set_local_zone`: both take the one place of a zone.
    #[tactic(auto, unfolding(crate::specs::Rules::set_zone))]
    pub fn set_zone(self, zone: Option<Zone>) -> Result<DateTimeBuilder, Refusal>
        ensures { outcome_of result ≡ set_zone self zone }
    {
        if self.has_zone() || self.has_offset() {
            return Err(Refusal::Twice);
        }
        Ok(DateTimeBuilder { zone, ..self })
    }

    #[tactic(auto, unfolding(crate::specs::Rules::set_date_time))]
    pub fn set_date_time(self, both: DateTime) -> Result<DateTimeBuilder, Refusal>
        ensures { outcome_of result ≡ set_date_time self both }
    {
        self.set_date(both.date)?.set_time(both.time)
    }

    // Whether the clock starts at midnight: a relative item alone keeps the clock of the base. `bare`: there is no relative item.
    #[tactic(auto, unfolding(crate::specs::Rules::need_midnight))]
    pub fn need_midnight(&self, bare: bool) -> bool
        ensures { result ≡ need_midnight self.now bare }
    {
        if self.date.is_some() || self.time.is_some() || self.weekday.is_some() {
            return true;
        }
        self.has_zone() && bare
    }

    fn has_zone(&self) -> bool
        ensures { result ≡ is_some self.now.zone }
    {
        self.zone.is_some()
    }

    // Whether the time that is given has an offset of its own.
    fn has_offset(self) -> bool
        ensures { result ≡ has_offset self.time }
    {
        self.time.is_some_and(|time| time.offset.is_some())
    }
}
