//! The ready tasks in the order in which they run.
#![tactic(auto)]

pub mod laws;
mod places;
mod queue;
#[cfg(test)]
mod tests;

pub use places::ReadyTask;
pub use queue::Ready;
