//! The machine: it runs a script step by step and keeps the lines of the trace.
#![tactic(auto)]

mod arriving;
mod bodies;
mod calls;
mod ending;
mod handlers;
mod hooking;
mod kernel;
mod machine;
mod messages;
mod pacing;
mod running;
mod serving;
mod settling;
mod stepping;
mod ticks;
mod turns;

pub use machine::{Arrival, Machine};
pub use pacing::Pace;
