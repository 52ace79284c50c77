//! Entries of a journal, and those that the lines of a trace make.

ghost use Rattle.std.specs.Prelude.{◌≡◌, ◌≢◌, IfOk, IfSome, IfNone};
ghost use Rattle.std.specs.List.{filter_map};
ghost use Rattle.tk_types.specs.declared.line.Entry.{Entry as TheEntry};
ghost use Rattle.tk_model.specs.Words.{parts_of};
ghost use Rattle.tk_model.specs.Journal.{IsHow, IsEntry, text_of_entry, how_of, entry_of, journal_of};
ghost use Rattle.tk_trace.specs.Entries.{how_at, entry_at};

use crate::words::{u8_at, u32_at};
use std::alloc::{AllocError, Global};
use tk_text::cut;
use tk_types::{Entry, How, Line, LineEnding, OutOfMemory};

/// How the words of a text say that a request ended.
#[tactic(auto, unfolding(crate::specs::Entries::how_at))]
fn how_at(text: &[u8]) -> Option<How>
    ensures value { result ≡ how_at (parts_of 32 text.now) }
    ensures how { IfSome result IsHow }
{
    let (word, rest) = cut(text, b' ');
    let Some(rest) = rest else {
        return if word == b"done".as_slice() {
            Some(How::Done)
        } else {
            None
        };
    };
    let (size, behind) = cut(rest, b' ');
    if behind.is_some() {
        return None;
    }
    if word != b"cut".as_slice() {
        return None;
    }
    let size = u32_at(size)?;
    Some(How::Cut(size))
}

/// The entry that the words of a text spell.
#[tactic(auto, unfolding(crate::specs::Entries::entry_at, crate::specs::Entries::how_at))]
fn entry_at(text: &[u8]) -> Option<Entry>
    ensures value { result ≡ entry_at (parts_of 32 text.now) }
    ensures entry { IfSome result IsEntry }
{
    let (place, rest) = cut(text, b' ');
    let (device, rest) = cut(rest?, b' ');
    let (request, rest) = cut(rest?, b' ');
    let place = u32_at(place)?;
    let device = u8_at(device)?;
    let request = u8_at(request)?;
    let how = how_at(rest?)?;
    Some(Entry {
        place,
        device,
        request,
        how,
    })
}

/// The entry of a journal whose text this is, `None` exactly where no entry has this text. It takes no memory.
pub fn read_entry(text: &[u8]) -> Option<Entry>
    ensures some { IfSome result (λ entry. (text.now ≡ text_of_entry entry) × IsEntry entry) }
    ensures none { IfNone result ((entry : TheEntry) → IsEntry entry → text.now ≢ text_of_entry entry) }
{
    entry_at(text)
}

/// The entry that a line makes: a line of an ending has one.
#[tactic(auto, unfolding(tk_model::specs::Journal::entry_of))]
fn entry_of(line: &Line) -> Option<Entry>
    ensures { result ≡ entry_of line.now }
{
    match *line {
        Line::Ending {
            step,
            device,
            request,
            ending,
        } => Some(Entry {
            place: step,
            device,
            request,
            how: how_of(ending),
        }),
        _ => None,
    }
}

/// How a journal says that a request ended.
fn how_of(ending: LineEnding) -> How
    ensures { result ≡ how_of ending }
{
    match ending {
        LineEnding::Done { .. } => How::Done,
        LineEnding::Cut(size) => How::Cut(size),
    }
}

/// The entries that lines make, in order.
fn entries_of(alloc: Global, lines: &[Line]) -> Result<Vec<Entry>, AllocError>
    ensures { IfOk result (λ entries. entries.items ≡ filter_map entry_of lines.now) }
{
    lines
        .iter()
        .filter_map(|line| entry_of(line))
        .collect(alloc)
}

/// The journal of a trace: the entries of its lines, in order.
pub fn journal_of(alloc: Global, lines: &[Line]) -> Result<Vec<Entry>, OutOfMemory>
    ensures { IfOk result (λ entries. entries.items ≡ journal_of lines.now) }
{
    let entries = entries_of(alloc, lines)?;
    Ok(entries)
}
