//! Lemmas on how much a step of the whole machine makes, which the code of the machine cites where it counts: `proofs/` holds
//! them, `specs/` the words that they speak in, and there is no code.
#![tactic(auto)]
