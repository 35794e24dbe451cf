// What relative items are, as in items/relative.rs: a displacement from the date that other items give. The definitions and laws of their
// readers are here; the readers are in `relative_readers`.

#![tactic(auto)]

#[derive(Clone, Copy)]
pub enum Relative {
    Years(i32),
    Months(i32),
    Days(i32),
    Hours(i32),
    Minutes(i32),
    Seconds(i64, u32),
}

// A displacement by nothing.
impl Default for Relative {
    fn default() -> Relative {
        Relative::Days(0)
    }
}
