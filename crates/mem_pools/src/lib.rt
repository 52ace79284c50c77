//! Memory pools of fixed and of variable blocks: their table, the calls on them, and the serving of their waiters.
#![tactic(auto)]

mod attributes;
mod calls;
mod deleting;
mod fixed_pool;
mod fixed_pools;
mod queues;
mod serving;
mod table;
#[cfg(test)]
mod tests;
mod variable_pool;
mod variable_pools;
#[cfg(test)]
mod waiter_tests;

pub use calls::call;
pub use serving::{serve, serve_first_fixed, serve_first_variable};
pub use table::Pools;
