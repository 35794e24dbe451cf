// Which items lose a digit of a fraction, that each item is at least a byte, and examples of each written form: theorems alone (proofs/), no
// function. The theorems on each form are in items, dates, times and relative.

#![tactic(auto)]
