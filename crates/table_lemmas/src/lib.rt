//! Lemmas on how long the tables of objects are, which the laws of waiting calls cite: `proofs/` holds them, `specs/` the words that
//! they speak in, and there is no code.
#![tactic(auto)]
