//! The lines of a journal as its entries.

ghost use Rattle.std.specs.Prelude.{◌≡◌, ◌≤◌, ◌+◌, ◌<◌, ◌^◌, [], length, IfOk};
ghost use Rattle.tk_types.specs.declared.why.Why.TheVariants as whys;
ghost use Rattle.tk_model.specs.TextLines.{text_lines};
ghost use Rattle.tk_session.specs.Gives.{GivesEntries};
ghost use Rattle.tk_session.specs.Reading.{entries_from, line_entry};

use crate::lines::{first_line, line_count};
use std::alloc::{AllocError, Global};
use tk_trace::read_entry;
use tk_types::{Entry, Sequence};

/// The bytes of the shortest line of a journal, with its line feed: `0 0 0 done`.
const SHORTEST_LINE: usize = 11;

/// Why entries aren't read: memory ran out, or that line is the text of no entry, or of no line of a trace.
#[derive(Clone, Copy, Debug, PartialEq, Eq)]
pub(crate) enum JournalError {
    Memory,
    Wrong { line: u32 },
}

/// The entry whose text a line is.
fn line_entry(line: &[u8]) -> Option<Entry>
    ensures { result ≡ line_entry line.now }
{
    read_entry(line)
}

/// Room for as many entries as these lines can have.
fn room_for(alloc: Global, lines: &[u8]) -> Result<Vec<Entry>, AllocError>
    ensures { IfOk result (λ entries. entries.items ≡ []) }
{
    let most = lines.len() / SHORTEST_LINE + 1;
    Vec::with_capacity(alloc, line_count(lines).min(most))
}

/// The entries of a journal, whose first line has that number, or the first line that is the text of no entry.
pub(crate) fn read_journal(
    alloc: Global,
    first: u32,
    lines: &[u8],
) -> Result<Sequence<Entry>, JournalError>
    requires { first + length lines.now < 2 ^ 32 }
    ensures { GivesEntries whys.Journal result (entries_from first (text_lines lines.now)) }
{
    let Ok(mut entries) = room_for(alloc, lines) else {
        return Err(JournalError::Memory);
    };
    let mut number = first;
    let mut left = lines;
    'lines: while !left.is_empty() {
        let (line, rest) = first_line(left);
        let Some(entry) = line_entry(line) else {
            return Err(JournalError::Wrong { line: number });
        };
        if entries.push(entry).is_err() {
            return Err(JournalError::Memory);
        }
        number += 1;
        left = rest;
    }
    Ok(Sequence::from_vec(entries))
}
