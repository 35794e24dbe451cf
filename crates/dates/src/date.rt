// What the readers of calendar dates answer.

pub use extended::MonthDay;

// A date whose year may be left out.
#[derive(Clone, Copy, Debug, PartialEq, Eq)]
pub struct Date {
    pub day: u8,
    pub month: u8,
    pub year: Option<u32>,
}
