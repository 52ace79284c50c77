//! Lemmas on calls and servings, which laws cite: `proofs/` holds them, and there is no code.
#![tactic(auto)]
