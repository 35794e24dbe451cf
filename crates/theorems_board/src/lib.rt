// Theorems alone: what the calls of the deadline board promise, one by one and one after the other.

#![tactic(auto)]
