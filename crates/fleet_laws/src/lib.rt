//! The law that goes from the record of a fleet to the world of kernel and drivers, the contract of a function that does nothing,
//! and the lemmas that it follows from.
#![tactic(auto)]

pub mod laws;
