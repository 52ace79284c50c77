//! Semaphores and event flags: their table, the calls on them, and the serving of their waiters.
#![tactic(auto)]

mod attributes;
mod calls;
mod deleting;
mod flag_waits;
mod flags;
mod sem_waits;
mod semaphores;
mod serving;
mod table;
#[cfg(test)]
mod tests;
#[cfg(test)]
mod waiter_tests;

pub use calls::call;
pub use serving::{serve, serve_first};
pub use table::SemFlags;
