//! Interrupt handlers, what delays dispatching, and subsystems with their services: their table, and the calls on them.
#![tactic(auto)]

mod calls;
mod dispatching;
mod interrupts;
mod services;
mod table;
#[cfg(test)]
mod tests;

pub use calls::call;
pub use table::{Contexts, depth_in, handler, left};
