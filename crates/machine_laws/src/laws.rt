//! Laws of the whole machine, each the contract of a function that does nothing.

ghost use Rattle.std.specs.Prelude.{◌≡◌, ℕ, ◌+◌, ◌-◌, ◌≤◌, Bool, false, if◌then◌else◌, true, List, length, [], ◌∷◌, None, Some};
ghost use Rattle.tk_types.specs.declared.run.Mode.{Mode};
ghost use Rattle.tk_types.specs.declared.script.Script.{Script};
ghost use Rattle.tk_types.specs.declared.task.Event.{Event as DueKind};
ghost use Rattle.kernel_model.specs.Bodies.Statements.{IsRunnable};
ghost use Rattle.machine_lemmas.specs.Strict.{IsStrict};
ghost use Rattle.machine_lemmas.specs.Taken.{ticks_taken};
ghost use Rattle.machine_lemmas.specs.Weights.{weight};
ghost use Rattle.machine_model.specs.Events.Follow.{dispatched, followed};
ghost use Rattle.machine_model.specs.Events.Rest.{AreUpToDate, IsAtRest};
ghost use Rattle.machine_model.specs.Events.Settle.{handed, settle};
ghost use Rattle.machine_model.specs.Runs.Reached.{Move, state_after};
ghost use Rattle.machine_model.specs.Runs.Step.{is_paced, made_pending, worked};
ghost use Rattle.machine_model.specs.Runs.Turns.{turn_of};
ghost use Rattle.machine_model.specs.States.Objects.{Parts, serve_object};
ghost use Rattle.machine_model.specs.States.State.{State, parts_of};
ghost use Rattle.machine_model.specs.declared.turns.Turn.TheVariants as turns;

/// After settling nobody can be served: no object of any kind has a waiter whose wait it could end or move, each task's current
/// priority is that of its definition, and settling hands no request to a driver any more. Each serving makes the waits lighter,
/// where one for the acceptance of a request weighs two, since its task may go on to wait for the ending, and every other one
/// weighs one; so 512 servings are enough for a table of 256 slots. Every state that a machine comes to has that many slots and
/// at most eight devices (`slots`, `devices`), whose list begins with a place that none takes.
pub fn settling_serves_until_none_can_be()
    ensures lighter { (p q : Parts) → length p.objects.devices.links ≤ 9 → serve_object p ≡ Some q → weight q.base + 1 ≤ weight p.base }
    ensures none_left { (mode : Mode) (p : Parts) → length p.objects.devices.links ≤ 9 → length p.base.tasks ≤ 256 → serve_object (settle mode p) ≡ None }
    ensures priorities { (mode : Mode) (p : Parts) → AreUpToDate (settle mode p).base (settle mode p).objects.mutexes }
    ensures given { (mode : Mode) (p : Parts) → handed mode (settle mode p) ≡ settle mode p }
    ensures slots { (script : Script) (mode : Mode) (budget : ℕ) (moves : List Move) → IsRunnable script →
        length (state_after script mode budget moves).base.tasks ≡ 256 }
    ensures devices { (script : Script) (mode : Mode) (budget : ℕ) (moves : List Move) → IsRunnable script →
        length (state_after script mode budget moves).objects.devices.links ≤ 9 }
    ensures reached { (script : Script) (mode : Mode) (budget : ℕ) (moves : List Move) → IsRunnable script →
        serve_object (parts_of (state_after script mode budget moves)) ≡ None }
    ensures reached_priorities { (script : Script) (mode : Mode) (budget : ℕ) (moves : List Move) → IsRunnable script →
        AreUpToDate (state_after script mode budget moves).base (state_after script mode budget moves).objects.mutexes }
{}

/// From a state at rest nothing follows: where it has settled, no end of a wait is left to take, and the chosen task is the
/// current one or dispatching is delayed, an event that touched nothing is followed by no change and no line. All that follows
/// an event leaves a state at rest, and so every state that a machine comes to is at rest, by whatever steps and endings it was
/// reached, also where in sync mode a request has just gone to its driver.
pub fn nothing_follows_from_a_state_at_rest()
    ensures nothing { (script : Script) (mode : Mode) (n : ℕ) (st : State) → IsAtRest mode st →
        followed script mode n st ≡ record { state = st; lines = [] } }
    ensures comes { (script : Script) (mode : Mode) (n : ℕ) (st : State) → length st.objects.devices.links ≤ 9 → length st.base.tasks ≤ 256 →
        IsAtRest mode (followed script mode n st).state }
    ensures reached { (script : Script) (mode : Mode) (budget : ℕ) (moves : List Move) → IsRunnable script →
        IsAtRest mode (state_after script mode budget moves) }
{}

/// A handler is never interrupted: while it runs, each turn is its own, and no task is dispatched. Where none runs, the
/// first handler that is due has the next turn, before ticks, interrupts and tasks.
pub fn a_handler_is_never_interrupted()
    ensures runs { (st : State) → st.base.flags.handler ≡ true → turn_of st ≡ turns.Handler }
    ensures waits { (n : ℕ) (st : State) → st.base.flags.handler ≡ true → dispatched n st ≡ record { state = st; lines = [] } }
    ensures due { (st : State) (what : DueKind) (later : List DueKind) → st.base.flags.handler ≡ false → st.due ≡ what ∷ later →
        turn_of st ≡ turns.Due what }
{}

/// Pending ticks are counted and none is lost: a step makes one pending where its number is one of the pace, and takes one where
/// the turn is a tick's. An interrupt is kept once: in every state that a machine comes to, the pending ones stand in strictly
/// rising order.
pub fn what_is_pending_is_kept()
    ensures made { (script : Script) (n : ℕ) (st : State) → (made_pending script n st).ticks ≡ st.ticks + (if is_paced script.pace n then 1 else 0) }
    ensures taken { (script : Script) (mode : Mode) (n : ℕ) (st : State) →
        (worked script mode n st).state.ticks ≡ (made_pending script n st).ticks - ticks_taken (turn_of (made_pending script n st)) }
    ensures once { (script : Script) (mode : Mode) (budget : ℕ) (moves : List Move) → IsStrict (state_after script mode budget moves).pending }
{}
