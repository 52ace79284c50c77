//! The text of a trace compared with a given text, line by line, as it is written.
#![tactic(auto)]

mod bytes;
mod compared;
mod comparing;
pub mod laws;
#[cfg(test)]
mod tests;
mod walk;

pub use compared::{Compared, Difference};
pub use comparing::Comparing;
pub use tk_types::OutOfMemory;
