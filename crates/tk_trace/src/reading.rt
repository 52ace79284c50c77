//! Texts read as lines.

ghost use Rattle.std.specs.Prelude.{◌≡◌, ◌≢◌, IfOk, IfSome, IfNone};
ghost use Rattle.std.specs.Str.{bytes_eq};
ghost use Rattle.tk_types.specs.declared.line.Line.{Line as TheLine};
ghost use Rattle.tk_model.specs.Lists.{texts};
ghost use Rattle.tk_model.specs.Words.{parts_of};
ghost use Rattle.tk_model.specs.LineRanges.{IsLine};
ghost use Rattle.tk_model.specs.LineText.{text_of_line};
ghost use Rattle.tk_trace.specs.Reading.{line_at};

use crate::lines::line_at;
use crate::printing::line_text;
use std::alloc::{AllocError, Global};
use tk_types::{Line, OutOfMemory};

/// What lies between the spaces of a text.
fn words_of(alloc: Global, text: &[u8]) -> Result<Vec<&[u8]>, AllocError>
    ensures { IfOk result (λ words. texts words.items ≡ parts_of 32 text.now) }
{
    text.split(|byte| *byte == b' ').collect(alloc)
}

/// The line that the words of a text spell. It may have another text, as where a value is written as a number
/// that has a name.
fn spelled_line(alloc: Global, text: &[u8]) -> Result<Option<Line>, OutOfMemory>
    ensures value { IfOk result (λ found. found ≡ line_at (parts_of 32 text.now)) }
    ensures line { IfOk result (λ found. IfSome found IsLine) }
{
    let words = words_of(alloc, text)?;
    Ok(line_at(words.as_slice()))
}

/// Whether a text is that of a line.
fn is_text_of(alloc: Global, line: &Line, text: &[u8]) -> Result<bool, OutOfMemory>
    ensures { IfOk result (λ same. same ≡ bytes_eq (text_of_line line.now) text.now) }
{
    let mut printed = Vec::new(alloc);
    line_text(line, &mut printed)?;
    Ok(printed.as_slice() == text)
}

/// The line whose text this is, `None` exactly where no line has this text. A value that
/// has a name is read by its name alone, so that each line has one text.
pub fn read_line(alloc: Global, text: &[u8]) -> Result<Option<Line>, OutOfMemory>
    ensures some { IfOk result (λ read. IfSome read (λ line. (text.now ≡ text_of_line line) × IsLine line)) }
    ensures none { IfOk result (λ read. IfNone read ((line : TheLine) → IsLine line → text.now ≢ text_of_line line)) }
{
    let Some(found) = spelled_line(alloc, text)? else {
        return Ok(None);
    };
    if is_text_of(alloc, &found, text)? {
        Ok(Some(found))
    } else {
        Ok(None)
    }
}
