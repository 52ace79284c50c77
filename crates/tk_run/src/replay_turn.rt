//! One turn of a run that is fed with a journal: an entry is taken, or a step is done.

ghost use Rattle.std.specs.Prelude.{◌≡◌, ◌++◌, ◌∷◌, [], IfOk};
ghost use Rattle.tk_types.specs.declared.run.Mode.TheVariants as modes;
ghost use Rattle.machine_model.specs.Runs.Trace.{is_next_by, last_line, without_ending};
ghost use Rattle.tk_run.specs.FedTurns.{Enters, IsReady, TurnGives, fed_by, next_course, settled, without_last};

use tk_kernel::{Arrival, Machine, Pace};
use tk_types::{End, Entry, LastLine, Line, Mode, OutOfMemory};

/// What a turn came to.
#[derive(Clone, Copy, Debug, PartialEq, Eq)]
pub(crate) enum Fate {
    /// The next entry was taken.
    Fed,
    /// A step was done.
    Went,
    /// The run is over, and this is its last line.
    Over(LastLine),
}

/// A turn that was done.
#[derive(Drop, Debug)]
pub(crate) struct FedTurn {
    /// The lines of the turn, with the last one where the run is over.
    pub(crate) lines: Vec<Line>,
    pub(crate) fate: Fate,
    /// The steps that are done behind the turn.
    pub(crate) steps: u32,
}

/// Whether the next entry has a place up to this one.
fn is_next_by(step: u32, left: &[Entry]) -> bool
    ensures { result ≡ is_next_by step left.now }
{
    match left {
        [] => false,
        [entry, ..] => entry.place <= step,
    }
}

/// How the last line says that a run ended by itself. At the end an entry that is left isn't fit.
fn last_line(end: End, number: u32, left: &[Entry]) -> LastLine
    ensures { result ≡ last_line end number left.now }
{
    if !left.is_empty() {
        return LastLine::Unfit(number);
    }
    match end {
        End::Idle => LastLine::Idle,
        End::Halt => LastLine::Halt,
        End::Budget => LastLine::Budget,
    }
}

/// How the last line says that an ending is needed and no entry gives it.
fn without_ending(number: u32, left: &[Entry]) -> LastLine
    ensures { result ≡ without_ending number left.now }
{
    if left.is_empty() {
        LastLine::Starved
    } else {
        LastLine::Unfit(number)
    }
}

/// The ending that an entry names arrives, or it isn't fit now, and nothing changed.
#[tactic(auto, unfolding(machine_model::specs::Runs::Trace::entered))]
fn enter(machine: &mut Machine, entry: &Entry) -> Result<bool, OutOfMemory>
    requires ready { IsReady machine.old }
    ensures { IfOk result (Enters machine.old machine.new entry.now) }
{
    if entry.place != machine.steps_done() + 1 {
        return Ok(false);
    }
    let Some(ending) = machine.expected(entry.device, entry.how)? else {
        return Ok(false);
    };
    if ending.request != entry.request {
        return Ok(false);
    }
    match machine.arrive(ending) {
        Ok(()) => Ok(true),
        Err(Arrival::Unfit) => Ok(false),
        Err(Arrival::OutOfMemory) => Err(OutOfMemory),
    }
}

/// The last turn of a run: these lines, and behind them the last one, after so many steps.
fn over_after(mut lines: Vec<Line>, step: u32, last: LastLine) -> Result<FedTurn, OutOfMemory>
    ensures lines { IfOk result (λ turn. turn.lines.items ≡ lines.items ++ Line.End step last ∷ []) }
    ensures fate { IfOk result (λ turn. turn.fate ≡ Fate.Over last) }
    ensures steps { IfOk result (λ turn. turn.steps ≡ step) }
{
    lines.push(Line::End { step, end: last })?;
    Ok(FedTurn {
        lines,
        fate: Fate::Over(last),
        steps: step,
    })
}

/// A turn behind which the run goes on, with the lines that the machine kept. Its messages are for drivers, of which a replay has none.
fn going_on(machine: &mut Machine, fate: Fate) -> FedTurn
    ensures lines { result.lines.items ≡ machine.old.lines }
    ensures fate { result.fate ≡ fate }
    ensures steps { result.steps ≡ machine.old.state.steps }
    ensures left { machine.new ≡ settled machine.old machine.old.state }
{
    let steps = machine.steps_done();
    machine.take_messages();
    FedTurn {
        lines: machine.take_lines(),
        fate,
        steps,
    }
}

/// The last turn of a run that the machine doesn't end: the lines that it kept are none of the trace.
fn stopped(machine: &mut Machine, step: u32, last: LastLine) -> Result<FedTurn, OutOfMemory>
    ensures lines { IfOk result (λ turn. turn.lines.items ≡ Line.End step last ∷ []) }
    ensures fate { IfOk result (λ turn. turn.fate ≡ Fate.Over last) }
    ensures steps { IfOk result (λ turn. turn.steps ≡ step) }
{
    let mut lines = machine.take_lines();
    lines.clear();
    over_after(lines, step, last)
}

/// The last turn of a run that the machine ends, whose own last line gives way to that of the trace.
fn ended(machine: &mut Machine, last: LastLine) -> Result<FedTurn, OutOfMemory>
    ensures lines { IfOk result (λ turn. turn.lines.items ≡ without_last machine.old.lines ++ Line.End machine.old.state.steps last ∷ []) }
    ensures fate { IfOk result (λ turn. turn.fate ≡ Fate.Over last) }
    ensures steps { IfOk result (λ turn. turn.steps ≡ machine.old.state.steps) }
{
    let step = machine.steps_done();
    let mut lines = machine.take_lines();
    let kept = lines.len().saturating_sub(1);
    lines.truncate(kept);
    over_after(lines, step, last)
}

/// The turn that takes the next entry, where there is one.
fn feed(machine: &mut Machine, left: &[Entry], number: u32) -> Result<FedTurn, OutOfMemory>
    requires ready { IsReady machine.old }
    ensures { IfOk result (TurnGives machine.old machine.new (fed_by machine.old number left.now)) }
{
    let Some(entry) = left.first() else {
        let step = machine.steps_done();
        return stopped(machine, step, LastLine::Starved);
    };
    if enter(machine, entry)? {
        return Ok(going_on(machine, Fate::Fed));
    }
    let step = machine.steps_done();
    stopped(machine, step, LastLine::Unfit(number))
}

/// A turn in free mode: an entry whose place has come is taken before the step.
fn free_turn(machine: &mut Machine, left: &[Entry], number: u32) -> Result<FedTurn, OutOfMemory>
    requires ready { IsReady machine.old }
    requires mode { machine.old.mode ≡ modes.Free }
    ensures { IfOk result (TurnGives machine.old machine.new (next_course machine.old number left.now)) }
{
    if is_next_by(machine.steps_done() + 1, left) {
        return feed(machine, left, number);
    }
    match machine.step()? {
        Pace::Went => Ok(going_on(machine, Fate::Went)),
        Pace::NeedsEnding => {
            let step = machine.steps_done();
            stopped(machine, step, without_ending(number, left))
        }
        Pace::Over(end) => ended(machine, last_line(end, number, left)),
    }
}

/// A turn in sync mode: an entry is taken only where an ending is needed.
fn sync_turn(machine: &mut Machine, left: &[Entry], number: u32) -> Result<FedTurn, OutOfMemory>
    requires ready { IsReady machine.old }
    requires mode { machine.old.mode ≡ modes.Sync }
    ensures { IfOk result (TurnGives machine.old machine.new (next_course machine.old number left.now)) }
{
    let steps = machine.steps_done();
    let unneeded = is_next_by(steps + 1, left);
    match machine.step()? {
        Pace::NeedsEnding => feed(machine, left, number),
        Pace::Went => {
            if unneeded {
                return stopped(machine, steps, LastLine::Unfit(number));
            }
            Ok(going_on(machine, Fate::Went))
        }
        Pace::Over(end) => {
            if unneeded {
                return stopped(machine, steps, LastLine::Unfit(number));
            }
            ended(machine, last_line(end, number, left))
        }
    }
}

/// One turn of a run that is fed with a journal, of which these entries are left; the first of them has that number.
pub(crate) fn fed_turn(
    machine: &mut Machine,
    mode: Mode,
    left: &[Entry],
    number: u32,
) -> Result<FedTurn, OutOfMemory>
    requires ready { IsReady machine.old }
    requires mode { machine.old.mode ≡ mode }
    ensures { IfOk result (TurnGives machine.old machine.new (next_course machine.old number left.now)) }
{
    match mode {
        Mode::Free => free_turn(machine, left, number),
        Mode::Sync => sync_turn(machine, left, number),
    }
}
