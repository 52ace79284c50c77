//! The generator of scripts: the script with a number, its run in sync mode, and the line that sums that run up.
#![tactic(auto)]

mod counts;
mod draws;
mod driving;
pub mod laws;
mod running;
mod script;
mod statements;
mod summary;
#[cfg(test)]
mod tests;

pub use running::summed_up;
pub use script::generated;
pub use summary::{Summary, summary_text};
pub use tk_types::OutOfMemory;
