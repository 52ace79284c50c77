//! Lemmas on the orders in which the tasks that wait for objects queue, which the laws of the whole machine cite: `proofs/` holds
//! them, and there is no code.
#![tactic(auto)]
