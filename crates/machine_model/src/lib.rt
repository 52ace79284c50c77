//! The whole machine, as definitions that compute: the crate's `specs/` hold its state, what follows each event, its steps
//! and its trace. There is no other code than the types that the rules name.
#![tactic(auto)]

pub mod turns;
