//! Reading a script with a trace.

ghost use Rattle.std.specs.Prelude.{◌≡◌, ◌≤◌, ◌+◌, ◌<◌, ◌^◌, length, None, IfOk};
ghost use Rattle.tk_model.specs.TextLines.{text_lines};
ghost use Rattle.tk_text.specs.Sessions.{session_limit};
ghost use Rattle.tk_session.specs.Reading.{behind_script};
ghost use Rattle.tk_session.specs.TracedAnswers.{AnswersTraced, IfTraced, Shows, ShowsTraced};
ghost use Rattle.tk_session.specs.TracedReading.{TracedScript, lines_from, trace_behind, traced_reading, with_lines};
ghost use Rattle.tk_session.specs.TracedSpelling.{SpellsTraced};

use crate::journal::JournalError;
use crate::lines::line_count;
use crate::trace::read_trace;
use crate::traced::{Traced, TracedReading};
use std::alloc::Global;
use tk_script::read_script;
use tk_text::{Divider, split_session};
use tk_types::{OutOfMemory, Reading, Script, Why};

/// A script that was read, with the trace behind its divider, whose first line has that number.
fn with_trace(
    alloc: Global,
    script: Script,
    first: u32,
    lines: &[u8],
) -> Result<TracedReading<'_>, OutOfMemory>
    requires { first + length lines.now < 2 ^ 32 }
    ensures answer { IfOk result (λ read. AnswersTraced read (with_lines script (lines_from first (text_lines lines.now)))) }
    ensures given { IfOk result (λ read. IfTraced read (λ answered. answered.given.now ≡ lines.now)) }
{
    match read_trace(alloc, first, lines) {
        Ok(journal) => Ok(TracedReading::Traced(Traced {
            script,
            journal,
            given: lines,
        })),
        Err(JournalError::Memory) => Err(OutOfMemory),
        Err(JournalError::Wrong { line }) => Ok(TracedReading::Refused {
            line,
            why: Why::Trace,
        }),
    }
}

/// What a text without a divider is read as, whose script was read.
fn without_trace<'a>(text: &[u8], script: Script) -> TracedReading<'a>
    requires { length text.now ≤ session_limit }
    ensures { AnswersTraced result (behind_script trace_behind text.now None script) }
{
    TracedReading::Refused {
        line: line_count(text) as u32 + 1,
        why: Why::End,
    }
}

/// The answer to a text.
#[tactic(auto, unfolding(crate::specs::TracedReading::traced_reading))]
fn answer_text(alloc: Global, text: &[u8]) -> Result<TracedReading<'_>, OutOfMemory>
    ensures answer { IfOk result (λ read. AnswersTraced read (traced_reading text.now)) }
    ensures within { IfOk result (λ read. IfTraced read (λ answered. length answered.given.now ≤ session_limit)) }
{
    let Some(parts) = split_session(text, Divider::Trace) else {
        return Ok(TracedReading::Refused {
            line: 0,
            why: Why::Long,
        });
    };
    let script = match read_script(alloc, parts.script)? {
        Reading::Script(script) => script,
        Reading::Refused { line, why } => return Ok(TracedReading::Refused { line, why }),
    };
    match parts.behind {
        Some(behind) => with_trace(alloc, script, behind.line, behind.bytes),
        None => Ok(without_trace(text, script)),
    }
}

/// Reads a text as a script, a line whose only word is `%trace`, and the lines of a trace, each of which is the text of one
/// and nothing else. The script may have any line of the grammar. Of the trace the answer has the entries that its lines
/// of endings make, and the bytes of its lines as they stand in the text.
///
/// A text is refused in this order. With the reason `long` and line 0 where it has more than 67,108,864 bytes, or its
/// script more than 1,048,576. As `read_script` refuses the script. With `end`, at the line behind the last, where no line is
/// the divider. With `trace`, at the first line behind the divider that is the text of no line of a trace; an empty line is
/// none, and the last line may lack its line feed. Lines are counted from the first line of the text. `OutOfMemory` says
/// that the host's memory ran out; beside the script, memory is taken for the entries, and for one line at a time.
pub fn read_traced(alloc: Global, text: &[u8]) -> Result<TracedReading<'_>, OutOfMemory>
    ensures exact { IfOk result (λ read. AnswersTraced read (traced_reading text.now)) }
    ensures found { IfOk result (λ read. IfTraced read (λ answered. (traced : TracedScript) × SpellsTraced text.now traced × Shows answered traced)) }
    ensures only { (traced : TracedScript) → SpellsTraced text.now traced → IfOk result (λ read. ShowsTraced read traced) }
    ensures few { IfOk result (λ read. IfTraced read (λ answered. length answered.journal ≤ session_limit)) }
    ensures within { IfOk result (λ read. IfTraced read (λ answered. length answered.given.now ≤ session_limit)) }
{
    answer_text(alloc, text)
}
