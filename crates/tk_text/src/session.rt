//! A session cut at its divider.

ghost use Rattle.std.specs.Prelude.{◌≡◌, ◌≤◌, ◌+◌, length, drop, IfSome};
ghost use Rattle.std.specs.Option.{option_map};
ghost use Rattle.tk_text.specs.Sessions.{session_limit, divider_word, is_divider, divider_at, session, parts_at, parts_of_session, IsWithin, IsFirstDivider};

use crate::cutting::cut;

/// The most bytes of a script.
const SCRIPT_LIMIT: usize = 1_048_576;

/// The most bytes of a session.
const SESSION_LIMIT: usize = 67_108_864;

/// The word that alone makes the line between a script and what stands behind it.
#[derive(Clone, Copy, PartialEq, Eq, Debug)]
pub enum Divider {
    /// Before the lines of a journal.
    Journal,
    /// Before the lines of a trace.
    Trace,
}

impl Divider {
    /// The word.
    pub fn word(self) -> &'static [u8]
        ensures { result.now ≡ divider_word self }
    {
        match self {
            Divider::Journal => b"%journal",
            Divider::Trace => b"%trace",
        }
    }
}

/// A line in a text.
#[derive(Clone, Copy, PartialEq, Eq, Debug)]
struct Place {
    /// Its number, from 1.
    line: usize,
    /// Where its bytes begin.
    from: usize,
    /// Where its line feed stands, or the text ends.
    to: usize,
}

/// What stands behind the divider.
#[derive(Clone, Copy, PartialEq, Eq, Debug)]
pub struct Behind<'a> {
    /// The number of its first line, counted from the first line of the session.
    pub line: u32,
    /// Its bytes.
    pub bytes: &'a [u8],
}

/// A session in its parts.
#[derive(Clone, Copy, PartialEq, Eq, Debug)]
pub struct Session<'a> {
    /// The bytes before the divider's line, or all of them where there is none.
    pub script: &'a [u8],
    /// What stands behind it.
    pub behind: Option<Behind<'a>>,
}

/// Whether a line has this word and no other.
fn has_only(line: &[u8], word: &[u8]) -> bool
    ensures { result ≡ is_divider word.now line.now }
{
    let mut found = false;
    let mut left = Some(line);
    'parts: while let Some(bytes) = left {
        let (part, rest) = cut(bytes, b' ');
        if !part.is_empty() {
            if found || part != word {
                return false;
            }
            found = true;
        }
        left = rest;
    }
    found
}

/// The first line of a text that has this word and no other. It takes no memory.
fn first_divider(text: &[u8], word: &[u8]) -> Option<Place>
    requires { length text.now ≤ session_limit }
    ensures value { result ≡ divider_at word.now text.now }
    ensures within { IfSome result (λ place. IsWithin (length text.now) place) }
    ensures first { IfSome result (IsFirstDivider word.now text.now) }
{
    let mut number: usize = 1;
    let mut at: usize = 0;
    let mut left = Some(text);
    'lines: while let Some(bytes) = left {
        let (line, rest) = cut(bytes, b'\n');
        if has_only(line, word) {
            return Some(Place {
                line: number,
                from: at,
                to: at + line.len(),
            });
        }
        number += 1;
        at += line.len() + 1;
        left = rest;
    }
    None
}

/// What stands behind a line.
fn lines_behind(text: &[u8], place: Place) -> Behind<'_>
    requires within { IsWithin (length text.now) place }
    requires room { length text.now ≤ session_limit }
    ensures line { result.line ≡ place.line + 1 }
    ensures bytes { result.bytes.now ≡ drop (place.to + 1) text.now }
{
    let start = text.len().min(place.to + 1);
    Behind {
        line: place.line as u32 + 1,
        bytes: &text[start..],
    }
}

/// A text in its parts.
fn parts(text: &[u8], divider: Divider) -> Session<'_>
    requires { length text.now ≤ session_limit }
    ensures { parts_of_session result ≡ parts_at text.now (divider_at (divider_word divider) text.now) }
{
    match first_divider(text, divider.word()) {
        Some(place) => Session {
            script: &text[..place.from],
            behind: Some(lines_behind(text, place)),
        },
        None => Session {
            script: text,
            behind: None,
        },
    }
}

/// Cuts a session at the first line whose only word is the divider; spaces before and behind the word are free,
/// and the limits of a script's line aren't this line's. Lines are counted through. Where no line is the divider,
/// the whole text is the script. It answers `None` exactly where the text has more than 67,108,864 bytes, or its
/// script more than 1,048,576. It takes no memory.
pub fn split_session(text: &[u8], divider: Divider) -> Option<Session<'_>>
    ensures { option_map parts_of_session result ≡ session divider text.now }
{
    if text.len() > SESSION_LIMIT {
        return None;
    }
    let session = parts(text, divider);
    if session.script.len() > SCRIPT_LIMIT {
        return None;
    }
    Some(session)
}
