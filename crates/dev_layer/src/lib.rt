//! Devices: their table, the calls on them, the serving of their waiters, what goes to drivers and what comes from them.
#![tactic(auto)]

mod accepting;
mod arriving;
mod calls;
mod closing;
mod firsts;
mod handing;
mod ids;
mod link;
mod links;
mod opening;
mod requesting;
mod requests;
mod rows;
mod serving;
mod suspending;
mod table;
#[cfg(test)]
mod tests;
mod units;
mod waiters;
mod waiting;

pub use arriving::arrive;
pub use calls::call;
pub use firsts::{serve, serve_first_acceptance, serve_first_close, serve_first_ending};
pub use handing::hand_over;
pub use suspending::serve_suspension;
pub use table::{Devices, at_driver, expected, first_queued, messages};
