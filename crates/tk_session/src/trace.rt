//! The lines of a trace, and the entries that they make.

ghost use Rattle.std.specs.Prelude.{◌≡◌, ◌+◌, ◌<◌, ◌^◌, [], ◌∷◌, ◌++◌, length, IfOk, OnOk};
ghost use Rattle.tk_types.specs.declared.why.Why.TheVariants as whys;
ghost use Rattle.tk_model.specs.Journal.{entry_of, how_of, journal_of};
ghost use Rattle.tk_model.specs.TextLines.{text_lines};
ghost use Rattle.tk_session.specs.Gives.{GivesEntries};
ghost use Rattle.tk_session.specs.TracedAnswers.{entries_of};
ghost use Rattle.tk_session.specs.TracedReading.{line_of, lines_from};

use crate::journal::JournalError;
use crate::lines::first_line;
use std::alloc::Global;
use tk_trace::read_line;
use tk_types::{Entry, How, Line, LineEnding, OutOfMemory, Sequence};

/// The line whose text these bytes are.
fn line_of(alloc: Global, bytes: &[u8]) -> Result<Option<Line>, OutOfMemory>
    ensures { IfOk result (λ read. read ≡ line_of bytes.now) }
{
    read_line(alloc, bytes)
}

/// How a journal says that a request ended.
fn how_of(ending: LineEnding) -> How
    ensures { result ≡ how_of ending }
{
    match ending {
        LineEnding::Done { .. } => How::Done,
        LineEnding::Cut(size) => How::Cut(size),
    }
}

/// The entry that a line makes: a line of an ending has one.
#[tactic(auto, unfolding(tk_model::specs::Journal::entry_of))]
fn entry_of(line: &Line) -> Option<Entry>
    ensures { result ≡ entry_of line.now }
{
    match *line {
        Line::Ending {
            step,
            device,
            request,
            ending,
        } => Some(Entry {
            place: step,
            device,
            request,
            how: how_of(ending),
        }),
        _ => None,
    }
}

/// Puts the entry that a line makes behind the others, where it makes one.
fn put_entry(line: &Line, entries: &mut Vec<Entry>) -> Result<(), OutOfMemory>
    ensures { OnOk result (entries.new.items ≡ entries.old.items ++ journal_of (line.now ∷ [])) }
{
    if let Some(entry) = entry_of(line) {
        entries.push(entry)?;
    }
    Ok(())
}

/// The entries that the lines of a trace make, whose first line has that number, or the first line that is the text of none.
/// Beside them it takes memory for one line at a time.
pub(crate) fn read_trace(
    alloc: Global,
    first: u32,
    lines: &[u8],
) -> Result<Sequence<Entry>, JournalError>
    requires { first + length lines.now < 2 ^ 32 }
    ensures { GivesEntries whys.Trace result (entries_of (lines_from first (text_lines lines.now))) }
{
    let mut entries = Vec::new(alloc);
    let mut number = first;
    let mut left = lines;
    'lines: while !left.is_empty() {
        let (bytes, rest) = first_line(left);
        let Ok(read) = line_of(alloc, bytes) else {
            return Err(JournalError::Memory);
        };
        let Some(line) = read else {
            return Err(JournalError::Wrong { line: number });
        };
        if put_entry(&line, &mut entries).is_err() {
            return Err(JournalError::Memory);
        }
        number += 1;
        left = rest;
    }
    Ok(Sequence::from_vec(entries))
}
