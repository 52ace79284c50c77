//! Lemmas on the system calls of all families: what each move of the base keeps, every call keeps. `proofs/` holds them, and
//! there is no code.
#![tactic(auto)]
