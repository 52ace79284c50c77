//! Lemmas on the places of ready tasks among their equals, on the whole machine, which its laws cite: `proofs/` holds them, and
//! there is no code.
#![tactic(auto)]
