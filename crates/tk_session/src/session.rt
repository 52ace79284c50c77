//! What a text is read as.

use tk_types::{Entry, Script, Sequence, Why};

/// A script, and the endings that its run is fed with.
#[derive(Drop, Debug)]
pub struct Session {
    pub script: Script,
    /// The entries of the journal, in the order of their lines.
    pub journal: Sequence<Entry>,
}

/// What a text is read as: a session, or a refusal at a line, for a reason.
#[derive(Drop, Debug)]
pub enum SessionReading {
    Session(Session),
    /// The first line that is wrong, counted from the first line of the text; line 0 is the text as a whole.
    Refused { line: u32, why: Why },
}
