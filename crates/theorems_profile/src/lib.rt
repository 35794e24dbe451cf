// Theorems alone: what the interchange profile reads, and which text each date has there.

#![tactic(auto)]
