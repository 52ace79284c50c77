//! Words as places in a text.

ghost use Rattle.std.specs.Prelude.{◌≡◌, ◌≤◌, length, slice_range};

use tk_types::{Sequence, Why};

/// Where a word lies: its line, counted from 1, and the bytes from `from` to before `to`.
#[derive(Clone, Copy, Debug, PartialEq, Eq)]
pub struct Token {
    /// The number of the line.
    pub line: u32,
    /// Where the word begins.
    pub from: u32,
    /// Where it ends.
    pub to: u32,
}

impl Token {
    /// The word in the text that it was found in.
    pub fn word<'a>(&self, text: &'a [u8]) -> &'a [u8]
        requires order { self.now.from ≤ self.now.to }
        requires within { self.now.to ≤ length text.now }
        ensures { result.now ≡ slice_range text.now self.now.from self.now.to }
    {
        &text[self.from as usize..self.to as usize]
    }
}

/// The words of a text, in order.
pub type Tokens = Sequence<Token>;

/// A line that shows by itself that a text is none: the line, counted from 1, and what is wrong.
#[derive(Clone, Copy, Debug, PartialEq, Eq)]
pub struct TextFault {
    /// The number of the line.
    pub line: u32,
    /// `Why::Byte` or `Why::Line`.
    pub why: Why,
}

/// A text as its words, or its first fault.
#[derive(Drop, Debug)]
pub enum Scanned {
    /// Each line is clean.
    Tokens(Tokens),
    /// The first line that isn't clean.
    Fault(TextFault),
}
