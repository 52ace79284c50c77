//! A given trace beside the run of its script.

ghost use Rattle.std.specs.Prelude.{◌≡◌, ◌+◌, ◌<◌, ◌≤◌, ◌^◌, [], length, IfOk, IsTrue};
ghost use Rattle.dev_layer.specs.Tables.{AreDevices};
ghost use Rattle.kernel_model.specs.Bodies.Statements.{IsRunnable};
ghost use Rattle.tk_session.specs.TracedAnswers.{Shows};
ghost use Rattle.tk_session.specs.TracedReading.{TracedScript};
ghost use Rattle.tk_run.specs.Commands.{IsBudget};
ghost use Rattle.tk_run.specs.Replays.{journal_limit};
ghost use Rattle.tk_run.specs.Verdicts.{GivesVerdict, outcome_of, traced_outcome};

use crate::replay::{RunEnd, replay_counted};
use crate::status::Status;
use crate::verdict::Verdict;
use std::alloc::Global;
use tk_session::{Session, Traced};
use tk_types::{Entry, Mode, OutOfMemory, Script, Sequence};
use trace_compare::{Compared, Comparing};

/// The verdict on a trace that was compared with that of its run.
fn compared(found: Compared<'_>) -> Result<Verdict<'_>, OutOfMemory>
    ensures { GivesVerdict found.entry result }
{
    match found {
        Compared::Same { lines } => Ok(Verdict::Same { lines }),
        Compared::Differs(difference) => Ok(Verdict::Differs(difference)),
        Compared::OutOfMemory => Err(OutOfMemory),
    }
}

/// Whether a run lacks no ending and is given none: its script has no devices, and its journal no entries.
fn lacks_nothing(script: &Script, journal: &Sequence<Entry>) -> bool
    ensures { IsTrue result → (script.now.devices ≡ []) × (journal.now ≡ []) }
{
    script.devices.is_empty() && journal.is_empty()
}

/// Runs a script, fed with the endings that the lines of the given trace record, and compares the trace of this run with the given one,
/// line by line as it comes; no line of either is kept. A run that lacks no ending and is given none is left at the first line that differs.
pub(crate) fn judged<'a>(
    alloc: Global,
    traced: Traced<'a>,
    mode: Mode,
    budget: u32,
) -> Result<Verdict<'a>, OutOfMemory>
    requires runnable { IsRunnable traced.script }
    requires devices { AreDevices traced.script.devices }
    requires few { length traced.journal ≤ journal_limit }
    requires short { length traced.given.now + 1 < 2 ^ 32 }
    requires steps { IsBudget budget }
    ensures { (shown : TracedScript) → Shows traced.entry shown → IfOk result (λ verdict. outcome_of verdict ≡ traced_outcome mode budget shown) }
{
    let Traced {
        script,
        journal,
        given,
    } = traced;
    let stops = lacks_nothing(&script, &journal);
    let mut comparing = Comparing::new(alloc, given, stops)?;
    let session = Session { script, journal };
    let RunEnd { status, steps } = replay_counted(alloc, session, mode, budget, &mut comparing);
    match status {
        Status::Done | Status::Budget => compared(comparing.finish()),
        Status::WriteFault if stops => compared(comparing.finish()),
        Status::Starved => Ok(Verdict::Starved { steps }),
        Status::Unfit { entry } => Ok(Verdict::Unfit { entry }),
        // Else the comparison had no memory to keep a line, or the run had none.
        _ => Err(OutOfMemory),
    }
}
