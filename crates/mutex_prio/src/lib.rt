//! Mutexes with inheritance and ceilings: their table, the calls on them, the serving of their waiters, and the current
//! priorities of tasks.
#![tactic(auto)]

mod attributes;
mod calls;
mod ceilings;
mod chains;
mod deleting;
mod lent;
mod locking;
mod locks;
mod making;
mod owners;
mod priorities;
mod serving;
mod table;
#[cfg(test)]
mod tests;
#[cfg(test)]
mod waiter_tests;

pub use calls::call;
pub use ceilings::ceiling_allows;
pub use owners::free_last;
pub use priorities::{current_of, resettle};
pub use serving::{serve, serve_first};
pub use table::Mutexes;
