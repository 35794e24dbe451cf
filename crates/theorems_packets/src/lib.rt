// A list of items as the bytes of a packet, and what is read of them: theorems alone (proofs/), no function.

#![tactic(auto)]
