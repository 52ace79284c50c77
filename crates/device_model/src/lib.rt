//! The rules of devices, their units and their requests, as definitions that compute: the crate's `specs/` hold them. There
//! is no other code than the types that the rules name, and what is done with bytes that have room.
#![tactic(auto)]

pub mod bytes;
pub mod messages;
pub mod rows;
