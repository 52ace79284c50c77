//! Lemmas on the steps of the machine, which its code cites where it works loop by loop: `proofs/` holds them, `specs/` the words
//! that they speak in, and there is no code.
#![tactic(auto)]
