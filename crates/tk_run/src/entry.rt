//! The call that does all that the shipped program does.

ghost use Rattle.std.specs.Prelude.{◌≡◌, ◌≢◌, ◌≤◌, ◌+◌, length, map, string_bytes, IfSome, None};
ghost use Rattle.tk_ports.specs.Streams.{CountsWithin, Rose, TakesWithin};
ghost use Rattle.tk_run.specs.Answers.{IsUsage};
ghost use Rattle.tk_run.specs.Commands.{IsUnread, command_of, input_limit};
ghost use Rattle.tk_run.specs.Runs.{CommandAnswers, CommandCertain, CommandGenerates, CommandHeadline, CommandStarts, CommandVerifies};

use crate::checking::check_script;
use crate::command::{Command, command_of};
use crate::generating::generate;
use crate::refusal::tell_usage;
use crate::replaying::replay_session;
use crate::running::run_session;
use crate::status::Status;
use crate::verifying::verify_session;
use dev_drivers::{FleetRecord, Spawner};
use std::alloc::Global;
use std::sync::Wait;
use std::thread::Threads;
use tk_ports::{Sink, Source};

/// Does all that the shipped program does: reads its words, reads the input from the source, does what the words
/// ask for with the script that the input is, the session, or the script with a trace, and writes to the sink: of `run` and `replay`
/// the trace, of `verify` the verdict, of `check` the printed form. `gen` reads nothing and writes one line. The drivers of a `run` with
/// devices run on threads that the spawner starts; its record tells what went to each of them and came from it. The other commands have
/// no record.
///
/// The answers come in this order. `Usage` where the words are no command; then nothing is read and `usage` is
/// written. `ReadFault` where the source failed; then nothing is written. `Refused` where the input spells no
/// script, for `replay` no session, or for `verify` no script with a trace; then `refused LINE WHY` is written. `NoThread` where a driver
/// of a `run` couldn't be started; then nothing is written. Then the trace is written, with `Done` or `Budget`, or of `replay`
/// `Starved` or `Unfit`, by its end; or the verdict, with `Starved` or `Unfit`, else `Differs`, else `Done`; or the line of `gen`, with
/// `Done` or `Budget`; or the printed form with `Done`. Each written line ends with a line feed. `WriteFault`, where the sink failed,
/// and `NoMemory` may stand in the place of what would have followed; then a front of those bytes was written.
/// Only a `run` with devices may wait, for a driver.
pub fn program<R: Threads + Wait + Copy + Send + Sync + 'static, S: Source, K: Sink, P: Spawner<R>>(
    rt: &R,
    alloc: Global,
    words: &[String],
    source: &mut S,
    sink: &mut K,
    spawner: &mut P,
) -> (Status, Option<FleetRecord>)
    // The answer is what words and input come to, unless a stream or a start failed or memory ran out.
    ensures answers { IfSome (S.left source.old) (λ input. CommandAnswers (command_of (map string_bytes words.now)) input (K.held sink.old) (K.held sink.new) result.0 result.1) }

    // With the status of a run or of a verdict the input spells what the command wants, and its trace, the verdict or its printed form
    // was written.
    ensures headline { IfSome (S.left source.old) (λ input. CommandHeadline (command_of (map string_bytes words.now)) input (K.held sink.old) (K.held sink.new) result.0 result.1) }

    // A trace that its own run writes is told to be that, unless a stream failed or memory ran out.
    ensures own { IfSome (S.left source.old) (λ input. CommandVerifies (command_of (map string_bytes words.now)) input result.0) }

    // To make a script nothing is read, so this holds for every source.
    ensures generated { CommandGenerates (command_of (map string_bytes words.now)) (K.held sink.old) (K.held sink.new) result.0 }

    // Words that are no command, and no others, are answered so; nothing is read then, nor to make a script.
    ensures usage { result.0 ≡ Status.Usage → command_of (map string_bytes words.now) ≡ None }
    ensures no_command { command_of (map string_bytes words.now) ≡ None → IsUsage result.0 }
    ensures unread { IsUnread (command_of (map string_bytes words.now)) → source.new ≡ source.old }

    // A failure shows in its count, and nothing was written before the input was read.
    ensures read_fault { result.0 ≡ Status.ReadFault → Rose (S.faulted source.old) (S.faulted source.new) × (sink.new ≡ sink.old) }
    ensures write_fault { result.0 ≡ Status.WriteFault → Rose (K.faulted sink.old) (K.faulted sink.new) }
    ensures no_thread { result.0 ≡ Status.NoThread → Rose (P.refusal_count spawner.old) (P.refusal_count spawner.new) }
    ensures source_faults_stay { S.faulted source.old ≤ S.faulted source.new }
    ensures sink_faults_stay { K.faulted sink.old ≤ K.faulted sink.new }

    // With a run to its end a driver was started for each device; and with each answer all are joined.
    ensures starts { IfSome (S.left source.old) (λ input. CommandStarts (command_of (map string_bytes words.now)) input (P.start_count spawner.old) (P.start_count spawner.new) result.0) }
    ensures running { P.running spawner.new ≡ P.running spawner.old }

    // No byte is taken past the one behind the limit, and each turn of reading that goes on takes one.
    ensures within { TakesWithin (S.left source.old) (S.left source.new) (S.turns source.old) (S.turns source.new) (input_limit (command_of (map string_bytes words.now)) + 1) }
    ensures turns { CountsWithin (S.turns source.old) (S.turns source.new) (input_limit (command_of (map string_bytes words.now)) + 1) }

    // Over a source that never fails and a sink with room no failure is answered.
    ensures certain { S.never_fails source.old → (result.0 ≢ Status.ReadFault) × (S.faulted source.new ≡ S.faulted source.old) }
    ensures complete { S.never_fails source.old → IfSome (S.left source.old) (λ input.
        CommandCertain (command_of (map string_bytes words.now)) input (K.sure_room sink.old) (K.faulted sink.old) (K.faulted sink.new) result.0) }
{
    let Some(command) = command_of(words) else {
        return (tell_usage(sink), None);
    };
    match command {
        Command::Run { mode, budget } => {
            run_session(rt, alloc, mode, budget, source, sink, spawner)
        }
        Command::Replay { mode, budget } => {
            (replay_session(alloc, mode, budget, source, sink), None)
        }
        Command::Verify { mode, budget } => {
            (verify_session(alloc, mode, budget, source, sink), None)
        }
        Command::Check => (check_script(alloc, source, sink), None),
        Command::Generate { number } => (generate(alloc, number, sink), None),
    }
}
