//! What a text with a trace is read as.

use tk_types::{Entry, Script, Sequence, Why};

/// A script, and the trace that is to be compared with its run.
#[derive(Drop, Debug)]
pub struct Traced<'a> {
    pub script: Script,
    /// The entries that the lines of endings in the trace make, in their order.
    pub journal: Sequence<Entry>,
    /// The lines of the trace, each as its text; the last one may lack its line feed.
    pub given: &'a [u8],
}

/// What a text is read as: a script with a trace, or a refusal at a line, for a reason.
#[derive(Drop, Debug)]
pub enum TracedReading<'a> {
    Traced(Traced<'a>),
    /// The first line that is wrong, counted from the first line of the text; line 0 is the text as a whole.
    Refused { line: u32, why: Why },
}
