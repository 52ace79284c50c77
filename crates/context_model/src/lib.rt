//! The rules of time, handlers, interrupts, services and hooks, as definitions that compute: the crate's `specs/` hold them,
//! a folder for each family of calls. There is no other code than the types that the rules name.
#![tactic(auto)]

pub mod cyclic_row;
pub mod hook_set;
