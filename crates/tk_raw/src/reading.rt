//! Texts as scripts whose names aren't resolved yet.

ghost use Rattle.std.specs.Prelude.{◌≡◌, ◌≤◌, ◌<◌, [], length};
ghost use Rattle.std.specs.Option.{option_copied};
ghost use Rattle.tk_text.specs.Tokens.{parts_left};
ghost use Rattle.tk_model.specs.Lists.{texts};
ghost use Rattle.tk_model.specs.Words.{lines_of};
ghost use Rattle.tk_raw.specs.Gives.{Gives, GivesText};
ghost use Rattle.tk_raw.specs.Lines.{begins_note, text_lines, whole_lines};
ghost use Rattle.tk_raw.specs.TextLoops.{text_behind, in_line};
ghost use Rattle.tk_raw.specs.RawReading.{clean, ended, head_line, is_head, no_lines, nothing, raw_reading, read_all, read_line, read_lines, script_with, words_line};

use crate::builder::{Builder, Reached};
use crate::errors::{ReadError, TextError};
use crate::raw::RawScript;
use crate::steps::step;
use std::alloc::Global;
use tk_text::{cut, line_fault, line_words};
use tk_types::{Sequence, Why};

/// The most bytes of a text.
const LONGEST_TEXT: usize = 1_048_576;

/// Whether a word begins with `#`.
#[tactic(auto, unfolding(crate::specs::Lines::begins_note))]
fn begins_note(word: &[u8]) -> bool
    ensures { result ≡ begins_note word.now }
{
    match word {
        [] => false,
        [first, ..] => *first == b'#',
    }
}

/// A line that counts, with its number.
#[tactic(auto, unfolding(crate::specs::RawReading::words_line))]
fn words_line(
    alloc: Global,
    number: u32,
    reached: Reached,
    words: &[&[u8]],
) -> Result<Reached, ReadError>
    ensures { Gives (λ reached. reached) result (words_line number reached (texts words.now)) }
{
    match words {
        [] => Ok(reached),
        [first, words @ ..] => {
            if begins_note(first) {
                return Ok(reached);
            }
            let Reached { builder, mut lines } = reached;
            let builder = step(alloc, builder, first, words)?;
            lines.push(number)?;
            Ok(Reached { builder, lines })
        }
    }
}

/// One line: its bytes, and then its words.
#[tactic(auto, unfolding(crate::specs::RawReading::read_line))]
fn read_line(
    alloc: Global,
    number: u32,
    reached: Reached,
    line: &[u8],
) -> Result<Reached, ReadError>
    ensures { Gives (λ reached. reached) result (read_line number reached line.now) }
{
    if let Some(why) = line_fault(line) {
        return Err(ReadError::Refused(why));
    }
    let words = line_words(alloc, line)?;
    words_line(alloc, number, reached, words.as_slice())
}

/// Whether words are those of line 1.
#[tactic(auto, unfolding(crate::specs::RawReading::is_head))]
fn is_head(words: &[&[u8]]) -> bool
    ensures { result ≡ is_head (texts words.now) }
{
    match words {
        [utk, one] => *utk == b"utk".as_slice() && *one == b"1".as_slice(),
        _ => false,
    }
}

/// What is read before line 2.
fn nothing(alloc: Global) -> Builder
    ensures { result ≡ nothing }
{
    Builder {
        devices: Sequence::new(alloc),
        pace: None,
        irqs: Sequence::new(alloc),
        boot: None,
        bodies: Sequence::new(alloc),
        current: None,
    }
}

/// What is reached before line 2.
fn no_lines(alloc: Global) -> Reached
    ensures { result ≡ no_lines }
{
    Reached {
        builder: nothing(alloc),
        lines: Sequence::new(alloc),
    }
}

/// Line 1.
#[tactic(auto, unfolding(crate::specs::RawReading::head_line))]
fn head_line(alloc: Global, line: &[u8]) -> Result<Reached, ReadError>
    ensures { Gives (λ reached. reached) result (head_line line.now) }
{
    if let Some(why) = line_fault(line) {
        return Err(ReadError::Refused(why));
    }
    let words = line_words(alloc, line)?;
    if is_head(words.as_slice()) {
        Ok(no_lines(alloc))
    } else {
        Err(ReadError::Refused(Why::Head))
    }
}

/// The end of the text: no body is open, and there is a boot line and a body.
#[tactic(auto, unfolding(crate::specs::RawReading::ended))]
fn ended(reached: Reached) -> Result<RawScript, ReadError>
    ensures { Gives (λ raw. raw) result (ended reached) }
{
    let Reached { builder, lines } = reached;
    let Builder {
        devices,
        pace,
        irqs,
        boot,
        bodies,
        current,
    } = builder;
    if current.is_some() {
        return Err(ReadError::Refused(Why::End));
    }
    match boot {
        None => Err(ReadError::Refused(Why::End)),
        Some(boot) => {
            if bodies.is_empty() {
                return Err(ReadError::Refused(Why::End));
            }
            Ok(RawScript {
                devices,
                pace,
                irqs,
                boot,
                bodies,
                lines,
            })
        }
    }
}

/// What stands behind a line: nothing where no line feed ends it.
fn behind(rest: Option<&[u8]>) -> &[u8]
    ensures { result.now ≡ text_behind (option_copied rest.entry) }
{
    match rest {
        None => &[],
        Some(bytes) => bytes,
    }
}

/// What is wrong with that line.
fn in_line(line: u32, error: ReadError) -> TextError
    ensures { result ≡ in_line line error }
{
    match error {
        ReadError::Memory => TextError::Memory,
        ReadError::Refused(why) => TextError::Refused { line, why },
    }
}

/// The end of a text whose lines have numbers below that one.
#[tactic(auto, unfolding(crate::specs::RawReading::read_lines), using(crate::proofs::TextLoops::refused_in_line))]
fn ended_at(number: u32, reached: Reached) -> Result<RawScript, TextError>
    ensures { GivesText (λ raw. raw) result (read_lines number reached []) }
{
    match ended(reached) {
        Ok(raw) => Ok(raw),
        Err(error) => Err(in_line(number, error)),
    }
}

/// The lines behind line 1, and then the end.
fn read_lines(alloc: Global, reached: Reached, text: &[u8]) -> Result<RawScript, TextError>
    requires { length text.now ≤ 1048576 }
    ensures { GivesText (λ raw. raw) result (read_lines 2 reached (text_lines text.now)) }
{
    let mut number: u32 = 2;
    let mut reached = reached;
    let mut left = text;
    'lines: while !left.is_empty() {
        let (line, rest) = cut(left, b'\n');
        match read_line(alloc, number, reached, line) {
            Ok(next) => reached = next,
            Err(error) => return Err(in_line(number, error)),
        }
        number += 1;
        left = behind(rest);
    }
    ended_at(number, reached)
}

/// Line 1, the lines behind it, and the end. The text isn't empty.
fn read_some(alloc: Global, text: &[u8]) -> Result<RawScript, TextError>
    requires some { 0 < length text.now }
    requires short { length text.now ≤ 1048576 }
    ensures { GivesText (λ raw. raw) result (read_all (text_lines text.now)) }
{
    let (line, rest) = cut(text, b'\n');
    match head_line(alloc, line) {
        Ok(reached) => read_lines(alloc, reached, behind(rest)),
        Err(error) => Err(in_line(1, error)),
    }
}

/// The script that a text is, or the first line that is wrong.
#[tactic(auto, unfolding(crate::specs::RawReading::raw_reading))]
pub(crate) fn raw_reading(alloc: Global, text: &[u8]) -> Result<RawScript, TextError>
    ensures { GivesText (λ raw. raw) result (raw_reading text.now) }
{
    if text.len() > LONGEST_TEXT {
        return Err(TextError::Refused {
            line: 0,
            why: Why::Long,
        });
    }
    if text.is_empty() {
        return Err(TextError::Refused {
            line: 1,
            why: Why::Head,
        });
    }
    read_some(alloc, text)
}
