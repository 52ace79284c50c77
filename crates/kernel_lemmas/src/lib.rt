//! Lemmas on tables, orders, queues and the moves of tasks, which the crates of the kernel cite: `proofs/` holds them, and
//! there is no code.
#![tactic(auto)]
