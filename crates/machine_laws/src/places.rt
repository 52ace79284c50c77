//! The law that a preempted task keeps its place, over the whole machine.

ghost use Rattle.std.specs.Prelude.{◌≡◌, ℕ, ℤ, ◌≤◌, true, length, List, Some};
ghost use Rattle.tk_types.specs.declared.answer.Who.{Who};
ghost use Rattle.tk_types.specs.declared.calls.Call.{Call};
ghost use Rattle.tk_types.specs.declared.calls.Call.TheVariants as calls;
ghost use Rattle.tk_types.specs.declared.calls.MutexCall.{MutexCall};
ghost use Rattle.tk_types.specs.declared.calls.TaskCall.{TaskCall};
ghost use Rattle.tk_types.specs.declared.calls.TaskCall.TheVariants as tasks;
ghost use Rattle.tk_types.specs.declared.run.Act.{Act};
ghost use Rattle.tk_types.specs.declared.run.Act.TheVariants as acts;
ghost use Rattle.tk_types.specs.declared.run.Mode.{Mode};
ghost use Rattle.tk_types.specs.declared.script.Script.{Script};
ghost use Rattle.tk_types.specs.declared.task.Event.{Event as DueKind};
ghost use Rattle.kernel_model.specs.Bodies.Statements.{IsRunnable};
ghost use Rattle.kernel_model.specs.LawWords.Precedence.{KeepsPlace};
ghost use Rattle.kernel_model.specs.Tasks.Base.{Base, base_of, current, is_ready, task_at};
ghost use Rattle.kernel_model.specs.Tasks.Calls.{named, rotated_priority};
ghost use Rattle.object_model.specs.Mutexes.Calls.{task_call_beside};
ghost use Rattle.object_model.specs.Mutexes.Tables.{Mutexes, mutex_at, owner_of};
ghost use Rattle.object_model.specs.Mutexes.Priority.{current_of, heir_in};
ghost use Rattle.context_model.specs.Contexts.Tables.{depth_in};
ghost use Rattle.device_model.specs.declared.messages.Ending.{Ending};
ghost use Rattle.machine_model.specs.Events.Arrivals.{arrived};
ghost use Rattle.machine_model.specs.Events.Bodies.{handler_ended};
ghost use Rattle.machine_model.specs.Events.Calls.{called, ended_in, without_holdings};
ghost use Rattle.machine_model.specs.Events.Follow.{Event, followed};
ghost use Rattle.machine_model.specs.Events.Handlers.{due_begun, interrupt_begun};
ghost use Rattle.machine_model.specs.Events.Rest.{AreUpToDate};
ghost use Rattle.machine_model.specs.Events.Settle.{settle};
ghost use Rattle.machine_model.specs.Events.Ticks.{tick};
ghost use Rattle.machine_model.specs.Runs.Reached.{Move, state_after};
ghost use Rattle.machine_model.specs.Runs.Step.{made_pending, worked};
ghost use Rattle.machine_model.specs.Runs.Turns.{acted, turn_of};
ghost use Rattle.machine_model.specs.States.Objects.{Parts};
ghost use Rattle.machine_model.specs.States.State.{State, parts_of, who_of};
ghost use Rattle.machine_model.specs.declared.turns.Turn.TheVariants as turns;
ghost use Rattle.machine_laws.specs.Formed.{IsFormed};

/// A task that is preempted keeps its place. Where a task is ready and the first of its equals, has the priority of its
/// definition, and owns no mutex that inherits (others it may own), it stays the first of its equals through settling, whoever
/// is served and whatever becomes of others' priorities (`settled`); through a whole tick (`tick`); through the start of a
/// handler and its end, which ask for neither (`due`, `interrupt`, `ended`); through all that follows an event, also while
/// dispatching is delayed (`follows`); while another task that ended frees its mutexes (`freed`); through the arrival of an
/// ending (`arrives`); and through a whole step in which no body goes on (`step`). After such a step all that is asked of the
/// task holds again, so through any number of them (`still_same`, `still_fresh`, `still_alone`).
///
/// A statement that is no call, and not the end of a task's own body, changes flags at most (`statements`).
/// Nor does a call take its place, whoever makes it, a handler, another task, or the task itself where it is ready still: none that
/// is on neither tasks nor mutexes (`calls`), with all that follows it (`calls_follow`); and none on mutexes that another task
/// makes, where the task owns none (`mutex_calls`, `mutex_calls_follow`). A call on tasks takes its place only by what it means,
/// where it rotates the tasks of its very priority or changes its own (`task_calls`); with all that follows, also the end of another
/// task and the mutexes that this one frees then, where the call leaves the task as it is (`task_calls_follow`).
///
/// A task that owns no mutex has the priority of its base (`owning_none`), and settling leaves it owning none
/// (`still_owning_none`).
pub fn preempted_task_keeps_its_place()
    ensures settled { (mode : Mode) (p : Parts) (t : ℕ) → 1 ≤ t → length p.objects.devices.links ≤ 9 → KeepsPlace p.base t → is_ready p.base t ≡ true →
        current p.base t ≡ current_of p.base p.objects.mutexes t → ((id : ℕ) → heir_in (mutex_at p.objects.mutexes id) ≡ t → ⊥) →
        KeepsPlace (settle mode p).base t }
    ensures tick { (mode : Mode) (n : ℕ) (st : State) (t : ℕ) → 1 ≤ t → length st.objects.devices.links ≤ 9 → KeepsPlace st.base t → is_ready st.base t ≡ true →
        current st.base t ≡ current_of st.base st.objects.mutexes t → ((id : ℕ) → heir_in (mutex_at st.objects.mutexes id) ≡ t → ⊥) →
        KeepsPlace (tick mode n st).state.base t }
    ensures due { (n : ℕ) (st : State) (what : DueKind) (t : ℕ) → KeepsPlace st.base t → KeepsPlace (due_begun n st what).state.base t }
    ensures interrupt { (n : ℕ) (st : State) (number t : ℕ) → KeepsPlace st.base t → KeepsPlace (interrupt_begun n st number).state.base t }
    ensures ended { (st : State) (t : ℕ) → KeepsPlace st.base t → KeepsPlace (handler_ended st).base t }
    ensures follows { (script : Script) (mode : Mode) (n : ℕ) (st : State) (t : ℕ) → 1 ≤ t → length st.objects.devices.links ≤ 9 → KeepsPlace st.base t →
        is_ready st.base t ≡ true → current st.base t ≡ current_of st.base st.objects.mutexes t →
        ((id : ℕ) → heir_in (mutex_at st.objects.mutexes id) ≡ t → ⊥) →
        KeepsPlace (followed script mode n st).state.base t }
    ensures freed { (mode : Mode) (st : State) (t other : ℕ) → 1 ≤ t → length st.objects.devices.links ≤ 9 → KeepsPlace st.base t → is_ready st.base t ≡ true →
        current st.base t ≡ current_of st.base st.objects.mutexes t → ((id : ℕ) → heir_in (mutex_at st.objects.mutexes id) ≡ t → ⊥) →
        (other ≡ t → ⊥) → KeepsPlace (without_holdings mode st other).base t }
    ensures arrives { (script : Script) (mode : Mode) (st : State) (ending : Ending) (event : Event) (t : ℕ) → 1 ≤ t → length st.objects.devices.links ≤ 9 →
        KeepsPlace st.base t → is_ready st.base t ≡ true → current st.base t ≡ current_of st.base st.objects.mutexes t →
        ((id : ℕ) → heir_in (mutex_at st.objects.mutexes id) ≡ t → ⊥) →
        arrived script mode st ending ≡ Some event → KeepsPlace event.state.base t }
    ensures step { (script : Script) (mode : Mode) (n : ℕ) (st : State) (t : ℕ) → 1 ≤ t → length st.objects.devices.links ≤ 9 → KeepsPlace st.base t →
        is_ready st.base t ≡ true → current st.base t ≡ current_of st.base st.objects.mutexes t →
        ((id : ℕ) → heir_in (mutex_at st.objects.mutexes id) ≡ t → ⊥) →
        (turn_of (made_pending script n st) ≡ turns.Handler → ⊥) → ((u : ℕ) → turn_of (made_pending script n st) ≡ turns.Task u → ⊥) →
        KeepsPlace (worked script mode n st).state.base t }
    ensures still_same { (script : Script) (mode : Mode) (n : ℕ) (st : State) (t : ℕ) → 1 ≤ t → length st.objects.devices.links ≤ 9 → KeepsPlace st.base t →
        is_ready st.base t ≡ true → current st.base t ≡ current_of st.base st.objects.mutexes t →
        ((id : ℕ) → heir_in (mutex_at st.objects.mutexes id) ≡ t → ⊥) →
        (turn_of (made_pending script n st) ≡ turns.Handler → ⊥) → ((u : ℕ) → turn_of (made_pending script n st) ≡ turns.Task u → ⊥) →
        task_at (worked script mode n st).state.base t ≡ task_at st.base t }
    ensures still_fresh { (script : Script) (mode : Mode) (n : ℕ) (st : State) (t : ℕ) → 1 ≤ t → length st.objects.devices.links ≤ 9 → KeepsPlace st.base t →
        is_ready st.base t ≡ true → current st.base t ≡ current_of st.base st.objects.mutexes t →
        ((id : ℕ) → heir_in (mutex_at st.objects.mutexes id) ≡ t → ⊥) →
        (turn_of (made_pending script n st) ≡ turns.Handler → ⊥) → ((u : ℕ) → turn_of (made_pending script n st) ≡ turns.Task u → ⊥) →
        let left = (worked script mode n st).state in current left.base t ≡ current_of left.base left.objects.mutexes t }
    ensures still_alone { (script : Script) (mode : Mode) (n : ℕ) (st : State) (t : ℕ) → 1 ≤ t → length st.objects.devices.links ≤ 9 → KeepsPlace st.base t →
        is_ready st.base t ≡ true → current st.base t ≡ current_of st.base st.objects.mutexes t →
        ((id : ℕ) → heir_in (mutex_at st.objects.mutexes id) ≡ t → ⊥) →
        (turn_of (made_pending script n st) ≡ turns.Handler → ⊥) → ((u : ℕ) → turn_of (made_pending script n st) ≡ turns.Task u → ⊥) →
        (id : ℕ) → heir_in (mutex_at (worked script mode n st).state.objects.mutexes id) ≡ t → ⊥ }
    ensures statements { (mode : Mode) (n : ℕ) (st : State) (body : ℕ) (act : Act) (t : ℕ) → ((call : Call) → act ≡ acts.Call call → ⊥) →
        (act ≡ acts.Fell → depth_in st.objects.contexts body ≡ 0 → body ≡ 0) → KeepsPlace st.base t → KeepsPlace (acted mode n st body act).state.base t }
    ensures calls { (mode : Mode) (n : ℕ) (st : State) (caller : ℕ) (call : Call) (t : ℕ) → length st.objects.devices.links ≤ 9 → KeepsPlace st.base t →
        is_ready st.base t ≡ true → ((it : TaskCall) → call ≡ calls.Task it → ⊥) → ((it : MutexCall) → call ≡ calls.Mutex it → ⊥) →
        is_ready (called mode n st caller call).state.base t ≡ true → KeepsPlace (called mode n st caller call).state.base t }
    ensures calls_follow { (script : Script) (mode : Mode) (n : ℕ) (st : State) (caller : ℕ) (call : Call) (t : ℕ) → 1 ≤ t → length st.objects.devices.links ≤ 9 →
        KeepsPlace st.base t → is_ready st.base t ≡ true → current st.base t ≡ current_of st.base st.objects.mutexes t →
        ((id : ℕ) → heir_in (mutex_at st.objects.mutexes id) ≡ t → ⊥) →
        ((it : TaskCall) → call ≡ calls.Task it → ⊥) → ((it : MutexCall) → call ≡ calls.Mutex it → ⊥) →
        is_ready (called mode n st caller call).state.base t ≡ true →
        KeepsPlace (followed script mode n (called mode n st caller call).state).state.base t }
    ensures mutex_calls { (mode : Mode) (n : ℕ) (st : State) (caller : ℕ) (call : MutexCall) (t : ℕ) → 1 ≤ t → length st.objects.devices.links ≤ 9 →
        KeepsPlace st.base t → is_ready st.base t ≡ true → ((id : ℕ) → owner_of st.objects.mutexes id ≡ t → ⊥) → (caller ≡ t → ⊥) →
        is_ready (called mode n st caller (calls.Mutex call)).state.base t ≡ true → KeepsPlace (called mode n st caller (calls.Mutex call)).state.base t }
    ensures mutex_calls_follow { (script : Script) (mode : Mode) (n : ℕ) (st : State) (caller : ℕ) (call : MutexCall) (t : ℕ) → 1 ≤ t →
        length st.objects.devices.links ≤ 9 → KeepsPlace st.base t → is_ready st.base t ≡ true → current st.base t ≡ base_of st.base t →
        ((id : ℕ) → owner_of st.objects.mutexes id ≡ t → ⊥) → (caller ≡ t → ⊥) →
        is_ready (called mode n st caller (calls.Mutex call)).state.base t ≡ true →
        KeepsPlace (followed script mode n (called mode n st caller (calls.Mutex call)).state).state.base t }
    ensures task_calls { (b : Base) (m : Mutexes) (who : Who) (t : ℕ) (call : TaskCall) → KeepsPlace b t → is_ready b t ≡ true →
        ((priority : ℤ) → call ≡ tasks.RotRdq priority → rotated_priority b priority ≡ current b t → ⊥) →
        ((task priority : ℤ) → call ≡ tasks.ChgPri task priority → named who task ≡ t → ⊥) →
        is_ready (task_call_beside b m who call).base t ≡ true → current (task_call_beside b m who call).base t ≡ current b t →
        KeepsPlace (task_call_beside b m who call).base t }
    ensures task_calls_follow { (script : Script) (mode : Mode) (n : ℕ) (st : State) (caller : ℕ) (call : TaskCall) (t : ℕ) → 1 ≤ t →
        length st.objects.devices.links ≤ 9 → KeepsPlace st.base t → is_ready st.base t ≡ true → current st.base t ≡ current_of st.base st.objects.mutexes t →
        ((id : ℕ) → heir_in (mutex_at st.objects.mutexes id) ≡ t → ⊥) →
        ((priority : ℤ) → call ≡ tasks.RotRdq priority → rotated_priority st.base priority ≡ current st.base t → ⊥) →
        ((task priority : ℤ) → call ≡ tasks.ChgPri task priority → named (who_of caller) task ≡ t → ⊥) → (ended_in caller call ≡ t → ⊥) →
        task_at (task_call_beside st.base st.objects.mutexes (who_of caller) call).base t ≡ task_at st.base t →
        KeepsPlace (followed script mode n (called mode n st caller (calls.Task call)).state).state.base t }
    ensures owning_none { (p : Parts) (t : ℕ) → 1 ≤ t → ((id : ℕ) → owner_of p.objects.mutexes id ≡ t → ⊥) →
        current_of p.base p.objects.mutexes t ≡ base_of p.base t }
    ensures still_owning_none { (mode : Mode) (p : Parts) (t : ℕ) → 1 ≤ t → length p.objects.devices.links ≤ 9 → KeepsPlace p.base t → is_ready p.base t ≡ true →
        current p.base t ≡ base_of p.base t → ((id : ℕ) → owner_of p.objects.mutexes id ≡ t → ⊥) →
        (id : ℕ) → owner_of (settle mode p).objects.mutexes id ≡ t → ⊥ }
{}

/// A task that owns mutexes with inheritance keeps its place where its priority stays: where it is ready and the first of its
/// equals, and has the same current priority behind an event as before it, it is the first of its equals still. No new stamp was
/// taken then, since in one event its priority only sinks: settling gives each ready task the priority of its definition at once,
/// and no serving changes that (`at_once`), since whoever lends it one waits for a mutex that is owned and isn't served; and what
/// ends waits, or frees mutexes, takes lenders away (`sinks`).
///
/// So it is through settling (`settled`), all that follows an event (`follows`), the arrival of an ending (`arrives`), and any
/// call but on tasks, made by anybody, with all that follows it (`calls`, `calls_follow`); through one on tasks that ends nobody,
/// but where it rotates the tasks of its very priority or changes its own (`task_calls_follow`). Where before it the task's
/// priority isn't above that of its definition, so it is also through a call that ends another task, and through that one's
/// mutexes, which are freed (`ends_follow`, `freed`); through a whole tick (`tick`); and through a whole step in which no body
/// goes on (`step`).
///
/// What is asked of the parts, and that priorities are those of their definitions, holds in every state that a machine comes to
/// (`reached`); a call leaves the former (`formed`).
pub fn an_owner_keeps_its_place()
    ensures reached { (script : Script) (mode : Mode) (budget : ℕ) (moves : List Move) → IsRunnable script →
        let st = state_after script mode budget moves in IsFormed (parts_of st) × AreUpToDate st.base st.objects.mutexes }
    ensures formed { (mode : Mode) (n : ℕ) (st : State) (caller : ℕ) (call : Call) → IsFormed (parts_of st) → IsFormed (parts_of (called mode n st caller call).state) }
    ensures at_once { (mode : Mode) (p : Parts) (t : ℕ) → 1 ≤ t → IsFormed p → is_ready p.base t ≡ true →
        current (settle mode p).base t ≡ current_of p.base p.objects.mutexes t }
    ensures settled { (mode : Mode) (p : Parts) (t : ℕ) → 1 ≤ t → IsFormed p → KeepsPlace p.base t → is_ready p.base t ≡ true →
        current (settle mode p).base t ≡ current p.base t → KeepsPlace (settle mode p).base t }
    ensures follows { (script : Script) (mode : Mode) (n : ℕ) (st : State) (t : ℕ) → 1 ≤ t → IsFormed (parts_of st) → KeepsPlace st.base t → is_ready st.base t ≡ true →
        current (followed script mode n st).state.base t ≡ current st.base t → KeepsPlace (followed script mode n st).state.base t }
    ensures arrives { (script : Script) (mode : Mode) (st : State) (ending : Ending) (event : Event) (t : ℕ) → 1 ≤ t → IsFormed (parts_of st) →
        KeepsPlace st.base t → is_ready st.base t ≡ true → arrived script mode st ending ≡ Some event → current event.state.base t ≡ current st.base t →
        KeepsPlace event.state.base t }
    ensures calls { (mode : Mode) (n : ℕ) (st : State) (caller : ℕ) (call : Call) (t : ℕ) → IsFormed (parts_of st) → KeepsPlace st.base t → is_ready st.base t ≡ true →
        ((it : TaskCall) → call ≡ calls.Task it → ⊥) → is_ready (called mode n st caller call).state.base t ≡ true → KeepsPlace (called mode n st caller call).state.base t }
    ensures calls_follow { (script : Script) (mode : Mode) (n : ℕ) (st : State) (caller : ℕ) (call : Call) (t : ℕ) → 1 ≤ t → IsFormed (parts_of st) →
        KeepsPlace st.base t → is_ready st.base t ≡ true → ((it : TaskCall) → call ≡ calls.Task it → ⊥) →
        is_ready (called mode n st caller call).state.base t ≡ true →
        current (followed script mode n (called mode n st caller call).state).state.base t ≡ current st.base t →
        KeepsPlace (followed script mode n (called mode n st caller call).state).state.base t }
    ensures task_calls_follow { (script : Script) (mode : Mode) (n : ℕ) (st : State) (caller : ℕ) (call : TaskCall) (t : ℕ) → 1 ≤ t → IsFormed (parts_of st) →
        KeepsPlace st.base t → is_ready st.base t ≡ true →
        ((priority : ℤ) → call ≡ tasks.RotRdq priority → rotated_priority st.base priority ≡ current st.base t → ⊥) →
        ((task priority : ℤ) → call ≡ tasks.ChgPri task priority → named (who_of caller) task ≡ t → ⊥) → ended_in caller call ≡ 0 →
        task_at (task_call_beside st.base st.objects.mutexes (who_of caller) call).base t ≡ task_at st.base t →
        current (followed script mode n (called mode n st caller (calls.Task call)).state).state.base t ≡ current st.base t →
        KeepsPlace (followed script mode n (called mode n st caller (calls.Task call)).state).state.base t }
    ensures ends_follow { (script : Script) (mode : Mode) (n : ℕ) (st : State) (caller : ℕ) (call : TaskCall) (t : ℕ) → 1 ≤ t → IsFormed (parts_of st) →
        KeepsPlace st.base t → is_ready st.base t ≡ true → current st.base t ≤ current_of st.base st.objects.mutexes t →
        (ended_in caller call ≡ 0 → ⊥) → (ended_in caller call ≡ t → ⊥) →
        current (followed script mode n (called mode n st caller (calls.Task call)).state).state.base t ≡ current st.base t →
        KeepsPlace (followed script mode n (called mode n st caller (calls.Task call)).state).state.base t }
    ensures tick { (mode : Mode) (n : ℕ) (st : State) (t : ℕ) → 1 ≤ t → IsFormed (parts_of st) → KeepsPlace st.base t → is_ready st.base t ≡ true →
        current st.base t ≤ current_of st.base st.objects.mutexes t → current (tick mode n st).state.base t ≡ current st.base t →
        KeepsPlace (tick mode n st).state.base t }
    ensures freed { (mode : Mode) (st : State) (t other : ℕ) → 1 ≤ t → IsFormed (parts_of st) → KeepsPlace st.base t → is_ready st.base t ≡ true →
        current st.base t ≤ current_of st.base st.objects.mutexes t → current (without_holdings mode st other).base t ≡ current st.base t →
        KeepsPlace (without_holdings mode st other).base t }
    ensures step { (script : Script) (mode : Mode) (n : ℕ) (st : State) (t : ℕ) → 1 ≤ t → IsFormed (parts_of st) → KeepsPlace st.base t → is_ready st.base t ≡ true →
        current st.base t ≤ current_of st.base st.objects.mutexes t →
        (turn_of (made_pending script n st) ≡ turns.Handler → ⊥) → ((u : ℕ) → turn_of (made_pending script n st) ≡ turns.Task u → ⊥) →
        current (worked script mode n st).state.base t ≡ current st.base t → KeepsPlace (worked script mode n st).state.base t }
    ensures sinks { (script : Script) (mode : Mode) (n : ℕ) (st : State) (t : ℕ) → 1 ≤ t → IsFormed (parts_of st) → is_ready st.base t ≡ true →
        current st.base t ≤ current_of st.base st.objects.mutexes t →
        (turn_of (made_pending script n st) ≡ turns.Handler → ⊥) → ((u : ℕ) → turn_of (made_pending script n st) ≡ turns.Task u → ⊥) →
        current st.base t ≤ current (worked script mode n st).state.base t }
{}
