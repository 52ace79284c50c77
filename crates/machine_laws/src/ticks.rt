//! Laws on what is set for a time, and on what ticks do, each the contract of a function that does nothing. Where a clause wants
//! at most eight devices, in a list that begins with a place that none takes, every state that a machine comes to has them so:
//! the law that settling serves until none can be says it (`devices`).

ghost use Rattle.std.specs.Prelude.{◌≡◌, ℕ, suc, ◌+◌, ◌<◌, ◌≤◌, false, true, pos, List, length, ◌⊎◌, Some};
ghost use Rattle.tk_types.specs.declared.run.Mode.{Mode};
ghost use Rattle.tk_types.specs.declared.script.Script.{Script};
ghost use Rattle.tk_types.specs.declared.task.DueEvent.{DueEvent};
ghost use Rattle.tk_types.specs.declared.task.Order.{Order};
ghost use Rattle.tk_types.specs.declared.task.Task.{Task};
ghost use Rattle.context_model.specs.Clocks.Phases.{ArePeriodic};
ghost use Rattle.kernel_model.specs.Bodies.Statements.{IsRunnable};
ghost use Rattle.kernel_model.specs.LawWords.Once.{IsOnce};
ghost use Rattle.kernel_model.specs.LawWords.TimeOrder.{AreInTimeOrder, AreLater, ComesAfter};
ghost use Rattle.kernel_model.specs.Tasks.Base.{is_waiting, make_wait, task_at, waits_for};
ghost use Rattle.kernel_model.specs.Tasks.Waits.{HavePlaces};
ghost use Rattle.kernel_model.specs.Words.Events.{insert_event, limit_of};
ghost use Rattle.device_model.specs.Devices.Requests.{acceptance_object};
ghost use Rattle.machine_lemmas.specs.TickTimes.{HasMoved, after_ticks};
ghost use Rattle.machine_model.specs.Events.Ticks.{tick_state};
ghost use Rattle.machine_model.specs.Runs.Reached.{Move, state_after};
ghost use Rattle.machine_model.specs.States.State.{State};

/// What the kernel keeps stands in order, in every state that a machine comes to: what is set stands in the order of the times at
/// which it falls due, each task stands once at most in the order of stamps and once at most in that of the beginnings of waits,
/// each task that waits has its place in both, and the table has 256 slots for tasks.
pub fn what_is_kept_stands_in_order()
    ensures times { (script : Script) (mode : Mode) (budget : ℕ) (moves : List Move) → IsRunnable script →
        AreInTimeOrder (state_after script mode budget moves).base.events }
    ensures stamps { (script : Script) (mode : Mode) (budget : ℕ) (moves : List Move) → IsRunnable script →
        IsOnce (state_after script mode budget moves).base.order }
    ensures beginnings { (script : Script) (mode : Mode) (budget : ℕ) (moves : List Move) → IsRunnable script →
        IsOnce (state_after script mode budget moves).base.since }
    ensures places { (script : Script) (mode : Mode) (budget : ℕ) (moves : List Move) → IsRunnable script →
        HavePlaces (state_after script mode budget moves).base }
    ensures slots { (script : Script) (mode : Mode) (budget : ℕ) (moves : List Move) → IsRunnable script →
        length (state_after script mode budget moves).base.tasks ≡ 256 }
{}

/// What is set falls due in order. What is set takes its place so that what was in order stays so. A tick leaves nothing that falls
/// due by the time that it makes, and the rest in order, also where it ends waits, so that all settles, and where it sets cyclic
/// handlers again: each period is a millisecond or more, so that those fall due later. That holds of the periods in every state
/// that a machine comes to, and so in each of these a tick leaves nothing that falls due by the time that it makes.
pub fn events_fall_due_in_order()
    ensures set_in_order { (event : DueEvent) (events : List DueEvent) → AreInTimeOrder events → AreInTimeOrder (insert_event event events) }
    ensures tick_in_order { (mode : Mode) (st : State) → length st.objects.devices.links ≤ 9 → AreInTimeOrder st.base.events →
        AreInTimeOrder (tick_state mode st).base.events }
    ensures tick { (mode : Mode) (st : State) → length st.objects.devices.links ≤ 9 → ArePeriodic st.objects.clocks → AreInTimeOrder st.base.events →
        AreLater (st.base.time + 1) (tick_state mode st).base.events }
    ensures periods { (script : Script) (mode : Mode) (budget : ℕ) (moves : List Move) → IsRunnable script →
        ArePeriodic (state_after script mode budget moves).objects.clocks }
    ensures reached { (script : Script) (mode : Mode) (budget : ℕ) (moves : List Move) → IsRunnable script →
        AreLater ((state_after script mode budget moves).base.time + 1) (tick_state mode (state_after script mode budget moves)).base.events }
{}

/// A tick ends the waits whose time has come, and leaves those that nothing serves. One that makes an earlier time than that of a
/// wait's end, and every tick where a wait has no limit, leaves it set and its task waiting where the wait is for an object below
/// 64, as a sleep or a delay is; whatever the wait is for, it leaves its limit and whether the task waits, or the wait is over, or
/// it was for the acceptance of a request and is for its ending now, without a limit. A tick that makes the time of a wait's end
/// ends the wait, unless that was for the acceptance of a request: such a wait is over too, or is for the ending now, without a
/// limit.
pub fn a_tick_ends_the_waits_whose_time_has_come()
    ensures stays_set { (mode : Mode) (st : State) (t object : ℕ) → length st.objects.devices.links ≤ 9 → waits_for st.base object t ≡ true → object < 64 →
        ComesAfter (st.base.time + 1) (limit_of t st.base.events) →
        limit_of t (tick_state mode st).base.events ≡ limit_of t st.base.events }
    ensures waits_on { (mode : Mode) (st : State) (t object : ℕ) → length st.objects.devices.links ≤ 9 → waits_for st.base object t ≡ true → object < 64 →
        ComesAfter (st.base.time + 1) (limit_of t st.base.events) →
        waits_for (tick_state mode st).base object t ≡ true }
    ensures served_or_waits_on { (mode : Mode) (st : State) (t : ℕ) → length st.objects.devices.links ≤ 9 → ComesAfter (st.base.time + 1) (limit_of t st.base.events) →
        ((limit_of t (tick_state mode st).base.events ≡ limit_of t st.base.events) × (is_waiting (tick_state mode st).base t ≡ is_waiting st.base t))
        ⊎ ((is_waiting (tick_state mode st).base t ≡ false) ⊎ HasMoved st.base (tick_state mode st).base t) }
    ensures is_over { (mode : Mode) (st : State) (t due : ℕ) → length st.objects.devices.links ≤ 9 → AreInTimeOrder st.base.events →
        limit_of t st.base.events ≡ Some due → due ≤ st.base.time + 1 →
        ((d : ℕ) → 1 ≤ d → d ≤ 8 → waits_for st.base (acceptance_object d) t ≡ false) →
        is_waiting (tick_state mode st).base t ≡ false }
    ensures is_over_or_moved { (mode : Mode) (st : State) (t due : ℕ) → length st.objects.devices.links ≤ 9 → AreInTimeOrder st.base.events →
        limit_of t st.base.events ≡ Some due → due ≤ st.base.time + 1 →
        (is_waiting (tick_state mode st).base t ≡ false) ⊎ HasMoved st.base (tick_state mode st).base t }
{}

/// A time-out falls due in its tick: a wait with a limit of n milliseconds for an object below 64, as a sleep or a delay is, goes on
/// through n ticks. With the next tick a wait is over, whatever it is for, also where it is served before, unless it is for the
/// acceptance of a request: such a wait is over then too, or is for the ending of the request, without a limit.
pub fn time_outs_fall_due_in_their_tick()
    ensures waits_on { (mode : Mode) (st : State) (t object : ℕ) (order : Order) (n passed : ℕ) (k : Task) → length st.objects.devices.links ≤ 9 →
        task_at st.base t ≡ Some k → object < 64 → passed ≤ n →
        is_waiting (after_ticks mode passed (record st { base = make_wait st.base t object order (pos n) })).base t ≡ true }
    ensures is_over { (mode : Mode) (st : State) (t object : ℕ) (order : Order) (n : ℕ) → length st.objects.devices.links ≤ 9 →
        AreInTimeOrder st.base.events →
        ((d : ℕ) → 1 ≤ d → d ≤ 8 → object ≡ acceptance_object d → ⊥) →
        is_waiting (after_ticks mode (suc n) (record st { base = make_wait st.base t object order (pos n) })).base t ≡ false }
    ensures is_over_or_moved { (mode : Mode) (st : State) (t object : ℕ) (order : Order) (n : ℕ) → length st.objects.devices.links ≤ 9 →
        AreInTimeOrder st.base.events →
        (is_waiting (after_ticks mode (suc n) (record st { base = make_wait st.base t object order (pos n) })).base t ≡ false)
        ⊎ HasMoved (make_wait st.base t object order (pos n)) (after_ticks mode (suc n) (record st { base = make_wait st.base t object order (pos n) })).base t }
{}
