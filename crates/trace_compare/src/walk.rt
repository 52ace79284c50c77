//! The lines of a text that is taken byte by byte, beside those of a given one.

ghost use Rattle.std.specs.Prelude.{◌≡◌, ◌+◌, ◌<◌, ◌^◌, ℕ, List, [], ◌∷◌, ◌++◌, true, false, bytes_eq, length, IfOk, OnOk, OnErr, MatchOption};
ghost use Rattle.std.specs.Option.{option_copied};
ghost use Rattle.tk_model.specs.TextLines.{text_lines};
ghost use Rattle.trace_compare.specs.Answers.{IfSame, IfDiffers};
ghost use Rattle.trace_compare.specs.Differences.{difference_of};
ghost use Rattle.trace_compare.specs.Walks.{IsWalk, difference_behind, first_of, lines_behind};

use crate::compared::{Compared, Difference};
use std::alloc::Global;
use tk_text::cut;
use tk_types::OutOfMemory;

/// The first line of a text, without its line feed, and what stands behind it, where the text has a line.
fn first_line(text: &[u8]) -> Option<(&[u8], &[u8])>
    ensures lines { MatchOption result (text_lines text.now ≡ []) (λ parts. text_lines text.now ≡ parts.0.now ∷ text_lines parts.1.now) }
    ensures shorter { MatchOption result (length text.now ≡ 0) (λ parts. length parts.1.now < length text.now) }
{
    if text.is_empty() {
        return None;
    }
    let (line, rest) = cut(text, b'\n');
    match rest {
        None => Some((line, &[])),
        Some(behind) => Some((line, behind)),
    }
}

/// The first line of a text, without its line feed, where it has one.
fn first_only(text: &[u8]) -> Option<&[u8]>
    ensures { option_copied result ≡ first_of (text_lines text.now) }
{
    let (line, _) = first_line(text)?;
    Some(line)
}

/// Whether two lines are the same.
fn is_same(want: &[u8], have: &[u8]) -> bool
    ensures { result ≡ bytes_eq want.now have.now }
{
    want == have
}

/// What was taken of a text, beside a given text. The lines taken before are those before the given line.
#[derive(Drop)]
pub(crate) struct Walk<'a> {
    /// The number of the line that is being taken, from 1 on.
    number: u32,
    /// Its bytes so far.
    line: Vec<u8>,
    /// What is left of the given text, from the line with that number on.
    left: &'a [u8],
    /// Whether that line was taken whole and isn't the given one. Then it stays.
    differs: bool,
}

impl<'a> Walk<'a> {
    /// Nothing taken yet, beside a given text of fewer than 2^32 - 1 bytes.
    pub(crate) fn new(alloc: Global, given: &'a [u8]) -> Result<Walk<'a>, OutOfMemory>
        requires { length given.now + 1 < 2 ^ 32 }
        ensures start { IfOk result (λ walk. (more : List ℕ) → difference_behind walk more ≡ difference_of more given.now) }
        ensures lines { IfOk result (λ walk. lines_behind walk ≡ length (text_lines given.now) + 1) }
        ensures fair { IfOk result (λ walk. IsWalk walk) }
    {
        Ok(Walk {
            number: 1,
            line: Vec::with_capacity(alloc, 256)?,
            left: given,
            differs: false,
        })
    }

    /// Whether a line that was taken whole differs.
    pub(crate) fn has_decided(&self) -> bool
        ensures { result ≡ self.now.differs }
    {
        self.differs
    }

    /// Takes a byte. Where memory runs out nothing is taken.
    pub(crate) fn take(&mut self, byte: u8) -> Result<(), OutOfMemory>
        requires { IsWalk self.old }
        ensures taken { OnOk result ((more : List ℕ) → difference_behind self.new more ≡ difference_behind self.old (byte ∷ more)) }
        ensures kept { OnErr result ((more : List ℕ) → difference_behind self.new more ≡ difference_behind self.old more) }
        ensures lines { lines_behind self.new ≡ lines_behind self.old }
        ensures fair { IsWalk self.new }
    {
        if self.differs {
            return Ok(());
        }
        if byte == b'\n' {
            self.end_line();
        } else {
            self.line.push(byte)?;
        }
        Ok(())
    }

    /// Takes a line feed, which ends the line.
    fn end_line(&mut self)
        requires fair { IsWalk self.old }
        requires going { self.old.differs ≡ false }
        ensures taken { (more : List ℕ) → difference_behind self.new more ≡ difference_behind self.old (10 ∷ more) }
        ensures lines { lines_behind self.new ≡ lines_behind self.old }
        ensures fair { IsWalk self.new }
        ensures begun { self.new.differs ≡ false → self.new.line.items ≡ [] }
    {
        match first_line(self.left) {
            Some((have, rest)) if is_same(self.line.as_slice(), have) => {
                self.number += 1;
                self.line.clear();
                self.left = rest;
            }
            _ => self.differs = true,
        }
    }

    /// The walk with its last line ended, where that line has bytes and no line feed.
    fn closed(self) -> Walk<'a>
        requires { IsWalk self }
        ensures same { difference_behind result [] ≡ difference_behind self.entry [] }
        ensures lines { lines_behind result ≡ lines_behind self.entry }
        ensures fair { IsWalk result }
        ensures begun { result.differs ≡ false → result.line.items ≡ [] }
    {
        let mut walk = self;
        if walk.differs || walk.line.is_empty() {
            return walk;
        }
        walk.end_line();
        walk
    }

    /// What the comparison came to, where no more bytes follow. Bytes behind the last line feed are a line.
    pub(crate) fn finish(self) -> Compared<'a>
        requires { IsWalk self }
        ensures same { IfSame result (λ lines. difference_behind self.entry [] ≡ None) }
        ensures lines { IfSame result (λ lines. lines + 1 ≡ lines_behind self.entry) }
        ensures differs { IfDiffers result (λ found. difference_behind self.entry [] ≡ Some found) }
        ensures memory { result ≡ Compared.OutOfMemory → ⊥ }
    {
        let Walk {
            number,
            line,
            left,
            differs,
        } = self.closed();
        let have = first_only(left);
        if differs {
            return Compared::Differs(Difference {
                line: number,
                want: Some(line),
                have,
            });
        }
        match have {
            None => Compared::Same { lines: number - 1 },
            Some(_) => Compared::Differs(Difference {
                line: number,
                want: None,
                have,
            }),
        }
    }
}
