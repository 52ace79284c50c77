//! Time events: what falls due later, in the order of due times and then of making. Only `Due::reserve` takes
//! memory, for as many events as may ever be set at once.
#![tactic(auto)]

mod due;
mod handlers;
pub mod laws;
#[cfg(test)]
mod tests;

pub use due::Due;
