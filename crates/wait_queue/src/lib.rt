//! The queues of the tasks that wait for objects.
#![tactic(auto)]

pub mod laws;
mod queue;
#[cfg(test)]
mod tests;
mod waiters;

pub use queue::Waits;
pub use waiters::Waiter;
