//! What is said of a trace that stands behind its script.

ghost use Rattle.std.specs.Prelude.{◌≡◌, ◌≤◌, ◌++◌, codes, decimal, length, option_copied, option_map, Some, IfOk, OnOk};
ghost use Rattle.tk_ports.specs.Streams.{Rose};
ghost use Rattle.trace_compare.specs.Answers.{shown};
ghost use Rattle.tk_run.specs.Answers.{IsCertain, IsPastTrace, OutcomeAnswers};
ghost use Rattle.tk_run.specs.Verdicts.{difference_text, outcome_of, told_line};

use crate::status::Status;
use itoa::Buffer;
use std::alloc::Global;
use tk_ports::Sink;
use tk_ports::whole::write_whole;
use tk_types::OutOfMemory;
use trace_compare::Difference;

/// What is said of a given trace.
#[derive(Drop, Debug)]
pub(crate) enum Verdict<'a> {
    /// It is the trace of its run, with so many lines.
    Same { lines: u32 },
    /// A line of it isn't that of its run.
    Differs(Difference<'a>),
    /// Its run needs an ending that none of its lines gives, after so many steps.
    Starved { steps: u32 },
    /// The ending of its line of endings with that number, from 1 on, isn't fit at its place.
    Unfit { entry: u32 },
}

/// A line of a word and a number.
fn numbered(alloc: Global, word: &str, number: u32) -> Result<Vec<u8>, OutOfMemory>
    ensures { IfOk result (λ text. text.items ≡ word.now ++ decimal number ++ codes "\n") }
{
    let mut text = Vec::new(alloc);
    let mut buffer = Buffer::new();
    text.extend_from_slice(word.as_bytes())?;
    text.extend_from_slice(buffer.format(number).as_bytes())?;
    text.extend_from_slice(b"\n")?;
    Ok(text)
}

/// A word, and behind it the line that it tells of, where there is one.
#[tactic(auto, using(std::proofs::Common::append_assoc), unfolding(crate::specs::Verdicts::told_line))]
fn tell_line(text: &mut Vec<u8>, word: &str, line: &[u8]) -> Result<(), OutOfMemory>
    ensures { OnOk result (text.new.items ≡ text.old.items ++ told_line word.now (Some line.now)) }
{
    text.extend_from_slice(word.as_bytes())?;
    text.extend_from_slice(b" ")?;
    text.extend_from_slice(line)?;
    text.extend_from_slice(b"\n")?;
    Ok(())
}

/// The line of the run, where it has one.
#[tactic(auto, unfolding(crate::specs::Verdicts::told_line))]
fn tell_want(text: &mut Vec<u8>, want: &Option<Vec<u8>>) -> Result<(), OutOfMemory>
    ensures { OnOk result (text.new.items ≡ text.old.items ++ told_line (codes "want") (option_map (λ line. line.items) want.now)) }
{
    match want {
        None => {
            text.extend_from_slice(b"want\n")?;
            Ok(())
        }
        Some(line) => tell_line(text, "want", line),
    }
}

/// The line of the given trace, where it has one.
#[tactic(auto, unfolding(crate::specs::Verdicts::told_line))]
fn tell_have(text: &mut Vec<u8>, have: Option<&[u8]>) -> Result<(), OutOfMemory>
    ensures { OnOk result (text.new.items ≡ text.old.items ++ told_line (codes "have") (option_copied have.entry)) }
{
    match have {
        None => {
            text.extend_from_slice(b"have\n")?;
            Ok(())
        }
        Some(line) => tell_line(text, "have", line),
    }
}

/// The lines that tell where a trace differs.
#[tactic(auto, using(std::proofs::Common::append_assoc), unfolding(crate::specs::Verdicts::difference_text))]
fn difference_text(alloc: Global, found: &Difference<'_>) -> Result<Vec<u8>, OutOfMemory>
    ensures { IfOk result (λ text. text.items ≡ difference_text (shown found.now)) }
{
    let mut text = numbered(alloc, "differs ", found.line)?;
    tell_want(&mut text, &found.want)?;
    tell_have(&mut text, found.have)?;
    Ok(text)
}

/// The text of a verdict.
#[tactic(auto, unfolding(crate::specs::Verdicts::same_text, crate::specs::Verdicts::starved_text, crate::specs::Verdicts::unfit_text))]
fn verdict_text(alloc: Global, verdict: &Verdict<'_>) -> Result<Vec<u8>, OutOfMemory>
    ensures { IfOk result (λ text. text.items ≡ (outcome_of verdict.now).bytes) }
{
    match verdict {
        Verdict::Same { lines } => numbered(alloc, "same ", *lines),
        Verdict::Differs(found) => difference_text(alloc, found),
        Verdict::Starved { steps } => numbered(alloc, "starved ", *steps),
        Verdict::Unfit { entry } => numbered(alloc, "unfit ", *entry),
    }
}

/// The status of a verdict.
fn verdict_status(verdict: &Verdict<'_>) -> Status
    ensures { result ≡ (outcome_of verdict.now).status }
{
    match verdict {
        Verdict::Same { .. } => Status::Done,
        Verdict::Differs(found) => Status::Differs { line: found.line },
        Verdict::Starved { steps: _ } => Status::Starved,
        Verdict::Unfit { entry } => Status::Unfit { entry: *entry },
    }
}

/// Writes a verdict.
pub(crate) fn tell_verdict<K: Sink>(alloc: Global, verdict: &Verdict<'_>, sink: &mut K) -> Status
    ensures outcome { OutcomeAnswers (outcome_of verdict.now) (K.held sink.old) (K.held sink.new) result }
    ensures past_trace { IsPastTrace result }
    ensures write_fault { result ≡ Status.WriteFault → Rose (K.faulted sink.old) (K.faulted sink.new) }
    ensures faults_stay { K.faulted sink.old ≤ K.faulted sink.new }
    ensures certain { length (outcome_of verdict.now).bytes ≤ K.sure_room sink.old
        → IsCertain (outcome_of verdict.now).status (K.faulted sink.old) (K.faulted sink.new) result }
{
    let Ok(text) = verdict_text(alloc, verdict) else {
        return Status::NoMemory;
    };
    if write_whole(sink, &text).is_err() {
        return Status::WriteFault;
    }
    verdict_status(verdict)
}
