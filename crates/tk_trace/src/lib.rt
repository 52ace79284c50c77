//! The lines of a trace and their texts, both ways.
#![tactic(auto)]

mod journal;
pub mod laws;
mod lines;
mod printing;
mod reading;
#[cfg(test)]
mod tests;
mod words;

pub use journal::{journal_of, read_entry};
pub use printing::{line_text, lines_text};
pub use reading::read_line;
pub use tk_types::{Entry, HandlerKind, Hook, How, LastLine, Line, LineEnding};
