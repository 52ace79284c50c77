//! Lemmas on what the tasks that wait have asked for, which the laws of the whole machine cite: `proofs/` holds them, and there is no
//! code.
#![tactic(auto)]
