//! The command `run`: a run of the script that the input is, with the drivers of its devices on threads.

ghost use Rattle.std.specs.Prelude.{◌≡◌, ◌≢◌, ◌≤◌, length, IfSome};
ghost use Rattle.tk_ports.specs.Streams.{CountsWithin, Rose, TakesWithin};
ghost use Rattle.tk_run.specs.Commands.{IsBudget};
ghost use Rattle.tk_run.specs.Readings.{IsRunReading, Runs, reading_of};
ghost use Rattle.tk_run.specs.Answers.{IsPastStart};
ghost use Rattle.tk_run.specs.Runs.{HasRoom, InputAnswers, ReadingAnswers, ReadingCertain, ReadingStarts, RunHeadline, ScriptAnswers, StartsAnswers};

use crate::LONGEST_SCRIPT;
use crate::fleet_run::run_with_drivers;
use crate::reading::reading_of;
use crate::refusal::refuse;
use crate::run::run_script;
use crate::status::Status;
use dev_drivers::{FleetRecord, Spawner};
use std::alloc::Global;
use std::sync::Wait;
use std::thread::Threads;
use tk_ports::whole::{ReadError, read_within};
use tk_ports::{Sink, Source};
use tk_types::{Mode, Reading, Script};

/// Runs the script that was read: with the drivers of its devices, or without devices as before.
fn run_read_script<R: Threads + Wait + Copy + Send + Sync + 'static, K: Sink, P: Spawner<R>>(
    rt: &R,
    alloc: Global,
    script: Script,
    mode: Mode,
    budget: u32,
    sink: &mut K,
    spawner: &mut P,
) -> (Status, Option<FleetRecord>)
    requires runs { Runs script }
    requires steps { IsBudget budget }
    ensures answers { ScriptAnswers script mode budget (K.held sink.old) (K.held sink.new) result.0 result.1 }
    ensures write_fault { result.0 ≡ Status.WriteFault → Rose (K.faulted sink.old) (K.faulted sink.new) }
    ensures faults_stay { K.faulted sink.old ≤ K.faulted sink.new }
    ensures no_thread { result.0 ≡ Status.NoThread → Rose (P.refusal_count spawner.old) (P.refusal_count spawner.new) }
    ensures starts { StartsAnswers (length script.devices) (P.start_count spawner.old) (P.start_count spawner.new) result.0 }
    ensures running { P.running spawner.new ≡ P.running spawner.old }
    ensures certain { HasRoom script mode budget (K.sure_room sink.old) → (result.0 ≢ Status.WriteFault) × (K.faulted sink.new ≡ K.faulted sink.old) }
{
    if script.devices.is_empty() {
        return (run_script(alloc, script, mode, budget, sink), None);
    }
    run_with_drivers(rt, alloc, script, mode, budget, sink, spawner)
}

/// Runs the script that was read, or writes why the text was refused.
fn run_reading<R: Threads + Wait + Copy + Send + Sync + 'static, K: Sink, P: Spawner<R>>(
    rt: &R,
    alloc: Global,
    reading: Reading,
    mode: Mode,
    budget: u32,
    sink: &mut K,
    spawner: &mut P,
) -> (Status, Option<FleetRecord>)
    requires runs { IsRunReading reading }
    requires steps { IsBudget budget }
    ensures answers { ReadingAnswers mode budget reading (K.held sink.old) (K.held sink.new) result.0 result.1 }
    ensures past_reading { IsPastStart result.0 }
    ensures write_fault { result.0 ≡ Status.WriteFault → Rose (K.faulted sink.old) (K.faulted sink.new) }
    ensures faults_stay { K.faulted sink.old ≤ K.faulted sink.new }
    ensures no_thread { result.0 ≡ Status.NoThread → Rose (P.refusal_count spawner.old) (P.refusal_count spawner.new) }
    ensures starts { ReadingStarts reading (P.start_count spawner.old) (P.start_count spawner.new) result.0 }
    ensures running { P.running spawner.new ≡ P.running spawner.old }
    ensures certain { ReadingCertain mode budget reading (K.sure_room sink.old) (K.faulted sink.old) (K.faulted sink.new) result.0 }
{
    match reading {
        Reading::Script(script) => run_read_script(rt, alloc, script, mode, budget, sink, spawner),
        Reading::Refused { line, why } => (refuse(alloc, line, why, sink), None),
    }
}

/// Runs the script that a text is, or writes why it is refused.
fn run_text<R: Threads + Wait + Copy + Send + Sync + 'static, K: Sink, P: Spawner<R>>(
    rt: &R,
    alloc: Global,
    text: &[u8],
    mode: Mode,
    budget: u32,
    sink: &mut K,
    spawner: &mut P,
) -> (Status, Option<FleetRecord>)
    requires steps { IsBudget budget }
    ensures answers { ReadingAnswers mode budget (reading_of text.now) (K.held sink.old) (K.held sink.new) result.0 result.1 }
    ensures past_reading { IsPastStart result.0 }
    ensures write_fault { result.0 ≡ Status.WriteFault → Rose (K.faulted sink.old) (K.faulted sink.new) }
    ensures faults_stay { K.faulted sink.old ≤ K.faulted sink.new }
    ensures no_thread { result.0 ≡ Status.NoThread → Rose (P.refusal_count spawner.old) (P.refusal_count spawner.new) }
    ensures starts { ReadingStarts (reading_of text.now) (P.start_count spawner.old) (P.start_count spawner.new) result.0 }
    ensures running { P.running spawner.new ≡ P.running spawner.old }
    ensures certain { ReadingCertain mode budget (reading_of text.now) (K.sure_room sink.old) (K.faulted sink.old) (K.faulted sink.new) result.0 }
{
    let Ok(reading) = reading_of(alloc, text) else {
        return (Status::NoMemory, None);
    };
    run_reading(rt, alloc, reading, mode, budget, sink, spawner)
}

/// Reads the input from the source, runs the script that it is and writes its trace, or writes why it is refused. The drivers of the
/// script's devices run on threads that the spawner starts. The budget of steps is from 1 to 1,000,000.
///
/// In free mode the drivers choose when a request ends, and the trace records it: it is the trace of the machine that is fed with
/// just these endings. In sync mode script and budget determine the trace. With `Done` and `Budget` there is a record where the
/// script has devices: it tells of each device that what its driver took and sent is what a driver of its unit does, that it was
/// handed what the run of the trace gives it, and that the endings in the trace came from it. All drivers are joined before it
/// answers.
///
/// The answers come in the order `ReadFault`, where the source failed and nothing was written; `Refused`; `NoThread`, where a
/// driver couldn't be started and nothing was written; then those of the run. `WriteFault` and `NoMemory` may stand in the place of
/// what would have followed; then a front of it was written. It may wait for a driver.
pub fn run_session<
    R: Threads + Wait + Copy + Send + Sync + 'static,
    S: Source,
    K: Sink,
    P: Spawner<R>,
>(
    rt: &R,
    alloc: Global,
    mode: Mode,
    budget: u32,
    source: &mut S,
    sink: &mut K,
    spawner: &mut P,
) -> (Status, Option<FleetRecord>)
    requires steps { IsBudget budget }
    ensures answers { IfSome (S.left source.old) (λ input. InputAnswers mode budget input (K.held sink.old) (K.held sink.new) result.0 result.1) }
    ensures headline { IfSome (S.left source.old) (λ input. RunHeadline mode budget input (K.held sink.old) (K.held sink.new) result.0 result.1) }
    ensures not_usage { result.0 ≢ Status.Usage }

    // A failure shows in its count, and nothing was written before the input was read.
    ensures read_fault { result.0 ≡ Status.ReadFault → Rose (S.faulted source.old) (S.faulted source.new) × (sink.new ≡ sink.old) }
    ensures write_fault { result.0 ≡ Status.WriteFault → Rose (K.faulted sink.old) (K.faulted sink.new) }
    ensures no_thread { result.0 ≡ Status.NoThread → Rose (P.refusal_count spawner.old) (P.refusal_count spawner.new) }
    ensures source_faults_stay { S.faulted source.old ≤ S.faulted source.new }
    ensures sink_faults_stay { K.faulted sink.old ≤ K.faulted sink.new }

    // With a run to its end a driver was started for each device; and with each answer all are joined.
    ensures starts { IfSome (S.left source.old) (λ input. ReadingStarts (reading_of input) (P.start_count spawner.old) (P.start_count spawner.new) result.0) }
    ensures running { P.running spawner.new ≡ P.running spawner.old }

    // No byte is taken past the one behind the limit, and each turn of reading that goes on takes one.
    ensures within { TakesWithin (S.left source.old) (S.left source.new) (S.turns source.old) (S.turns source.new) 1048577 }
    ensures turns { CountsWithin (S.turns source.old) (S.turns source.new) 1048577 }

    // Over a source that never fails and a sink with room no failure is answered.
    ensures certain { S.never_fails source.old → (result.0 ≢ Status.ReadFault) × (S.faulted source.new ≡ S.faulted source.old) }
    ensures complete { S.never_fails source.old → IfSome (S.left source.old) (λ input.
        ReadingCertain mode budget (reading_of input) (K.sure_room sink.old) (K.faulted sink.old) (K.faulted sink.new) result.0) }
{
    let text = match read_within(alloc, source, LONGEST_SCRIPT) {
        Ok(text) => text,
        Err(ReadError::Failed) => return (Status::ReadFault, None),
        Err(ReadError::OutOfMemory) => return (Status::NoMemory, None),
    };
    run_text(rt, alloc, &text, mode, budget, sink, spawner)
}
