// Theorems alone: what every call of the library promises.

#![tactic(auto)]
