// A date and a time in one item, as in items/combined.rs.

use dates::date::Date;
use times::time::Time;

#[derive(Clone, Copy)]
pub struct DateTime {
    pub date: Date,
    pub time: Time,
}
