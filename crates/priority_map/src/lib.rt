//! Which priorities are taken, one bit for each in three words.
#![tactic(auto)]

pub mod laws;
mod map;
#[cfg(test)]
mod tests;
mod words;

pub use map::PriorityMap;
