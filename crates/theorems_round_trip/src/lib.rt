// Theorems alone: a written record, read under any accepted base, is the record itself, and with seconds after it the record so many seconds
// away.

#![tactic(auto)]
