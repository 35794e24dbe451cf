// Sums and products in whole numbers, and which of them an i64 or an i32 can represent: definitions (specs/) and laws (proofs/), no function.

#![tactic(auto)]
