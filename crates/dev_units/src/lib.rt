//! The units of devices: what a unit holds, and what its driver does with messages and requests, block by block. No thread stands
//! here.
#![tactic(auto)]

mod block_end;
mod count;
mod driver;
#[cfg(test)]
mod driver_tests;
mod lists;
mod serving;
#[cfg(test)]
mod tests;
mod unit;

pub use block_end::BlockEnd;
pub use driver::DriverCore;
pub use unit::Unit;
