//! What a comparison came to.

/// Where two texts differ: the number of the line, from 1 on, and that line in each of them, without its line feed. A text
/// that has no such line has none.
#[derive(Drop, Debug)]
pub struct Difference<'a> {
    /// The number of the line.
    pub line: u32,
    /// What was written.
    pub want: Option<Vec<u8>>,
    /// What the given text has.
    pub have: Option<&'a [u8]>,
}

/// What a comparison came to.
#[derive(Drop, Debug)]
pub enum Compared<'a> {
    /// Both texts have the same lines, so many.
    Same {
        /// How many lines there are.
        lines: u32,
    },
    /// The first line that differs.
    Differs(Difference<'a>),
    /// Memory ran out while a line was kept.
    OutOfMemory,
}
