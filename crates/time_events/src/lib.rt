//! System time, cyclic and alarm handlers: their table, the calls on them, and what falls due at a tick.
#![tactic(auto)]

mod alarms;
mod attributes;
mod calls;
mod cyclics;
mod shown;
mod table;
#[cfg(test)]
mod tests;
mod ticks;
mod times;

pub use calls::call;
pub use table::{Clocks, body_of};
pub use ticks::tick;
