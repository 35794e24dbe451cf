// What the arguments want of the line program, and how a run of it ends.
#![tactic(auto)]

pub mod arguments;
pub mod ending;
