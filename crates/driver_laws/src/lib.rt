//! Laws of drivers, each the contract of a function that does nothing, and the lemmas that they follow from.
#![tactic(auto)]

pub mod laws;
