//! Lemmas on the whole machine, which its laws cite: `proofs/` holds them, `specs/` the words that they speak in, and there is no
//! code.
#![tactic(auto)]
