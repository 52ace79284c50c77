//! Laws of turns, each the contract of a function that does nothing.

ghost use Rattle.std.specs.Prelude.{◌≡◌, ◌≤◌, ◌+◌, ◌*◌, ℕ, length, List, Option, Some};
ghost use Rattle.tk_types.specs.declared.line.Entry.{Entry};
ghost use Rattle.tk_types.specs.declared.line.LastLine.TheVariants as lasts;
ghost use Rattle.tk_types.specs.declared.run.End.{End};
ghost use Rattle.tk_types.specs.declared.run.Mode.{Mode};
ghost use Rattle.tk_types.specs.declared.run.Mode.TheVariants as modes;
ghost use Rattle.tk_types.specs.declared.script.Script.{Script};
ghost use Rattle.kernel_model.specs.Bodies.Statements.{IsRunnable};
ghost use Rattle.device_model.specs.declared.messages.Ending.{Ending};
ghost use Rattle.machine_model.specs.States.State.{State};
ghost use Rattle.machine_model.specs.Events.Follow.{Event};
ghost use Rattle.machine_model.specs.Events.Arrivals.{arrived};
ghost use Rattle.machine_model.specs.Runs.Step.{Went, step};
ghost use Rattle.machine_model.specs.Runs.SyncTrace.{SyncRun, sync_after, sync_run, sync_runs};
ghost use Rattle.machine_model.specs.Runs.Trace.{Trace, after, runs, start, trace};
ghost use Rattle.journal_laws.specs.Owed.{owed};
ghost use Rattle.journal_laws.specs.Turns.{IsRun, fed_turn, first_place, whole_turn};

/// A step makes one request at most, and a request ends once at most. So the endings that may still come where no more calls are
/// made, of the requests that haven't ended and of those that wait for their acceptance, are none at the start; a step adds one at
/// most, and an ending that arrives takes one of them away. That holds of any state, in both modes.
pub fn a_step_makes_one_request_at_most()
    ensures start { (script : Script) → owed (start script).state.base (start script).state.objects.devices ≡ 0 }
    ensures step { (script : Script) (mode : Mode) (budget : ℕ) (st : State) (event : Event) (over : Option End) → step script mode budget st ≡ Went event over →
        owed event.state.base event.state.objects.devices ≤ owed st.base st.objects.devices + 1 }
    ensures ending { (script : Script) (mode : Mode) (st : State) (e : Ending) (event : Event) → arrived script mode st e ≡ Some event →
        owed event.state.base event.state.objects.devices + 1 ≤ owed st.base st.objects.devices }
{}

/// A run ends by its turns, and never because they are used up: with a budget of at least one step, its turns alone make the trace
/// of any script, with any journal and in both modes, and more turns than a trace counts make no difference. So `budget` is its
/// last line only where the step with that number was done, and each other last line is what the last turn says.
pub fn a_run_ends_by_its_turns()
    ensures turns { (script : Script) (mode : Mode) (budget : ℕ) (entries : List Entry) → 1 ≤ budget →
        (rest : Trace) × IsRun (fed_turn script mode budget) (first_place script entries) rest × (trace script mode budget entries ≡ after (start script).lines rest) }
    ensures more { (script : Script) (mode : Mode) (budget turns : ℕ) (entries : List Entry) → 1 ≤ budget → budget + length entries ≤ turns →
        after (start script).lines (runs turns script mode budget (start script).state 1 entries) ≡ trace script mode budget entries }
    ensures budget { (script : Script) (mode : Mode) (budget : ℕ) (entries : List Entry) → 1 ≤ budget → (trace script mode budget entries).last ≡ lasts.Budget →
        (trace script mode budget entries).steps ≡ budget }
{}

/// The same of the run of sync mode, in which each ending that is needed is that of a request done whole: twice as many turns as
/// there are steps in the budget are enough, since no more endings arrive than steps are done. A script that may run always finds
/// the ending that it needs: its run is the trace that is fed with the endings that arrived in it.
pub fn a_sync_run_ends_by_its_turns()
    ensures turns { (script : Script) (budget : ℕ) → 1 ≤ budget →
        (rest : SyncRun) × IsRun (whole_turn script budget) (start script).state rest × (sync_run script budget ≡ sync_after (start script).lines rest) }
    ensures more { (script : Script) (budget turns : ℕ) → 1 ≤ budget → 2 * budget ≤ turns →
        sync_after (start script).lines (sync_runs turns script budget (start script).state) ≡ sync_run script budget }
    ensures budget { (script : Script) (budget : ℕ) → 1 ≤ budget → (sync_run script budget).trace.last ≡ lasts.Budget → (sync_run script budget).trace.steps ≡ budget }
    ensures endings { (script : Script) (budget : ℕ) → 1 ≤ budget → length (sync_run script budget).entries ≤ (sync_run script budget).trace.steps }
    ensures own { (script : Script) (budget : ℕ) → IsRunnable script → 1 ≤ budget → (sync_run script budget).trace ≡ trace script modes.Sync budget (sync_run script budget).entries }
{}
