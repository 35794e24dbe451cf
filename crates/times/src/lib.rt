// What offsets from UTC and times of day are, as in items/offset.rs and time.rs. The definitions and laws of their readers are here; the readers
// are in `offsets` and `time_readers`.

#![tactic(auto)]

pub mod offset;
pub mod time;
