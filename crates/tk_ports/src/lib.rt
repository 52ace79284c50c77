//! Where bytes come from and go to: a source and a sink as traits, streams in memory for tests, and the
//! streams of the process.
//!
//! A stream tells by its ghost members what it has left or holds. A failure is answered only in a call in
//! which the stream's count of faults rose, so what stands above can show that a failure was real.
#![tactic(auto)]

mod calls;
mod mem_sink;
mod mem_source;
mod ports;
mod standard;
#[cfg(test)]
mod tests;
pub mod whole;

pub use mem_sink::MemSink;
pub use mem_source::MemSource;
pub use ports::{Failed, Gate, Sink, Source};
pub use standard::{StdSink, StdSource};
