//! Laws of the whole machine, which stand beside its definitions. Nothing is built on this crate.
#![tactic(auto)]

pub mod laws;
pub mod phases;
pub mod places;
pub mod priorities;
pub mod services;
pub mod ticks;
pub mod waits;
