//! Sessions as texts: a script, and the journal that its run is fed with, or the trace that its run is compared with.
#![tactic(auto)]

mod journal;
pub mod laws;
mod lines;
mod read;
mod read_trace;
mod session;
#[cfg(test)]
mod tests;
mod trace;
mod traced;

pub use read::read_session;
pub use read_trace::read_traced;
pub use session::{Session, SessionReading};
pub use tk_types::{Entry, How, Script};
pub use traced::{Traced, TracedReading};
