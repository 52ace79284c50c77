//! Scripts as texts, read line by line: names stay names, and what they name is looked up by a later reader.
#![tactic(auto)]

mod bodies;
mod builder;
mod errors;
mod head;
mod header;
pub mod laws;
mod open_body;
mod pieces;
mod raw;
mod read;
mod reading;
mod steps;
#[cfg(test)]
mod tests;

pub use head::Head;
pub use raw::{Piece, RawBody, RawBoot, RawItem, RawScript, RawStmt};
pub use read::{RawReading, read_raw};
