//! Reading a session.

ghost use Rattle.std.specs.Prelude.{◌≡◌, ◌≤◌, ◌+◌, ◌<◌, ◌^◌, length, None, IfOk};
ghost use Rattle.tk_model.specs.TextLines.{text_lines};
ghost use Rattle.tk_text.specs.Sessions.{session_limit};
ghost use Rattle.tk_session.specs.Spelling.{SpellsSession};
ghost use Rattle.tk_session.specs.declared.session.Session.{Session as TheSession};
ghost use Rattle.tk_session.specs.declared.session.SessionReading.TheVariants as readings;
ghost use Rattle.tk_session.specs.Reading.{answer, behind_script, entries_from, journal_behind, session_reading, with_script};

use crate::journal::{JournalError, read_journal};
use crate::lines::line_count;
use crate::session::{Session, SessionReading};
use std::alloc::Global;
use tk_script::read_script;
use tk_text::{Divider, split_session};
use tk_types::{OutOfMemory, Reading, Script, Why};

/// The session of a script that was read and of the journal behind its divider, whose first line has that number.
fn with_journal(
    alloc: Global,
    script: Script,
    first: u32,
    lines: &[u8],
) -> Result<SessionReading, OutOfMemory>
    requires { first + length lines.now < 2 ^ 32 }
    ensures { IfOk result (λ read. read ≡ answer (with_script script (entries_from first (text_lines lines.now)))) }
{
    match read_journal(alloc, first, lines) {
        Ok(journal) => Ok(SessionReading::Session(Session { script, journal })),
        Err(JournalError::Memory) => Err(OutOfMemory),
        Err(JournalError::Wrong { line }) => Ok(SessionReading::Refused {
            line,
            why: Why::Journal,
        }),
    }
}

/// What a text without a divider is read as, whose script was read.
fn without_journal(text: &[u8], script: Script) -> SessionReading
    requires { length text.now ≤ session_limit }
    ensures { result ≡ answer (behind_script journal_behind text.now None script) }
{
    SessionReading::Refused {
        line: line_count(text) as u32 + 1,
        why: Why::End,
    }
}

/// The answer to a text.
#[tactic(auto, unfolding(crate::specs::Reading::session_reading))]
fn answer_text(alloc: Global, text: &[u8]) -> Result<SessionReading, OutOfMemory>
    ensures { IfOk result (λ read. read ≡ answer (session_reading text.now)) }
{
    let Some(parts) = split_session(text, Divider::Journal) else {
        return Ok(SessionReading::Refused {
            line: 0,
            why: Why::Long,
        });
    };
    let script = match read_script(alloc, parts.script)? {
        Reading::Script(script) => script,
        Reading::Refused { line, why } => return Ok(SessionReading::Refused { line, why }),
    };
    match parts.behind {
        Some(behind) => with_journal(alloc, script, behind.line, behind.bytes),
        None => Ok(without_journal(text, script)),
    }
}

/// Reads a text as a session: a script, a line whose only word is `%journal`, and the lines of a journal, each of which is
/// `PLACE DEV REQ done` or `PLACE DEV REQ cut M` and nothing else. The script may have any line of the grammar.
///
/// A text is refused in this order. With the reason `long` and line 0 where it has more than 67,108,864 bytes, or its
/// script more than 1,048,576. As `read_script` refuses the script. With `end`, at the line behind the last, where no line is
/// the divider. With `journal`, at the first line behind the divider that is the text of no entry; an empty line is none.
/// Lines are counted from the first line of the text. `OutOfMemory` says that the host's memory ran out; beside the
/// script, memory is taken for the entries alone.
pub fn read_session(alloc: Global, text: &[u8]) -> Result<SessionReading, OutOfMemory>
    ensures exact { IfOk result (λ read. read ≡ answer (session_reading text.now)) }
    ensures found { IfOk result (λ read. (session : TheSession) → read ≡ readings.Session session → SpellsSession text.now session) }
    ensures only { (session : TheSession) → SpellsSession text.now session → IfOk result (λ read. read ≡ readings.Session session) }
{
    answer_text(alloc, text)
}
