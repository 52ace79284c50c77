//! The drivers of devices on threads of their own, and the fleet that the kernel drives them with.
#![tactic(auto)]

mod calls;
mod closed;
mod closing;
mod driven;
mod fleet;
mod hands;
mod job;
mod leave;
mod link;
mod log;
mod outcome;
mod preparing;
mod protocol;
mod record;
mod rows;
mod spawner;
mod starting;
mod std_spawner;
mod tally;
mod test_spawner;
#[cfg(test)]
mod tests;
mod threads;
mod turns;
mod worker;

pub use closed::Counts;
pub use fleet::Fleet;
pub use job::DriverJob;
pub use leave::Leave;
pub use log::DriverLog;
pub use outcome::Start;
pub use record::FleetRecord;
pub use spawner::{Spawner, Started};
pub use std_spawner::StdSpawner;
pub use test_spawner::TestSpawner;
pub use threads::{AnyGate, OfJob, Open};
pub use worker::drive;
