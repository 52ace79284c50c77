//! Laws of the definitions, each the contract of a function that does nothing.

ghost use Rattle.std.specs.Prelude.{◌≡◌, ℕ, ◌+◌, ◌<◌, ◌≤◌, ◌==◌, if◌then◌else◌, filter, Bool, false, true, ℤ, pos, List, length, ◌∷◌, ◌++◌, ◌⊎◌, None, Some};
ghost use Rattle.std.specs.Int.{is_negative};
ghost use Rattle.tk_types.specs.declared.answer.Answer.{Answer};
ghost use Rattle.tk_types.specs.declared.answer.Outcome.TheVariants.{Returned};
ghost use Rattle.tk_types.specs.declared.answer.Who.{Who};
ghost use Rattle.tk_types.specs.declared.answer.Who.TheVariants as whos;
ghost use Rattle.tk_types.specs.declared.calls.SemFlagCall.{SemFlagCall};
ghost use Rattle.tk_types.specs.declared.calls.TaskCall.{TaskCall};
ghost use Rattle.tk_types.specs.declared.error_code.Er.TheVariants as er;
ghost use Rattle.tk_types.specs.declared.task.DueEvent.{DueEvent};
ghost use Rattle.tk_types.specs.declared.task.Event.TheVariants.{Wait};
ghost use Rattle.tk_types.specs.declared.task.Order.{Order};
ghost use Rattle.tk_types.specs.declared.task.Phase.TheVariants.{Ready};
ghost use Rattle.tk_types.specs.declared.task.Task.{Task};
ghost use Rattle.kernel_model.specs.declared.objects.EventFlag.{EventFlag};
ghost use Rattle.kernel_model.specs.declared.objects.FlagWish.{FlagWish};
ghost use Rattle.kernel_model.specs.declared.objects.Semaphore.{Semaphore};
ghost use Rattle.kernel_model.specs.Tasks.Base.{Base, chosen, current, dispatch, is_ready, is_waiting, is_waiting_phase, make_ready, make_wait, queue, ready_list, ready_of, release, resume, suspensions_of, task_at};
ghost use Rattle.kernel_model.specs.Words.Checks.{failed};
ghost use Rattle.kernel_model.specs.Words.Events.{due_event, insert_event, limit_of};
ghost use Rattle.kernel_model.specs.LawWords.Once.{IsOnce, times};
ghost use Rattle.kernel_model.specs.Words.Orders.{without};
ghost use Rattle.kernel_model.specs.LawWords.Precedence.{KeepsPlace, NoneReady, Precedes, StandsLast, gives_place_away};
ghost use Rattle.kernel_model.specs.LawWords.Rising.{IsRisingBy};
ghost use Rattle.kernel_model.specs.SemFlags.Calls.{sem_flag_call, serves_at_once, waited_for_flag, waited_for_sem};
ghost use Rattle.kernel_model.specs.SemFlags.Tables.{SemFlagParts, SemFlags, flag_at, has_bits, sem_at, serve_flag, serve_sem};
ghost use Rattle.kernel_model.specs.Tasks.Calls.{task_call};
ghost use Rattle.kernel_model.specs.LawWords.TimeOrder.{AreDueBy, AreLater, after_time};
ghost use Rattle.kernel_model.specs.SemFlags.Trial.{MayWait, flag_trial, sem_trial};
ghost use Rattle.kernel_model.specs.LawWords.Waiters.{waiting_count};

/// Dispatching chooses the ready task of the highest priority, and of equals the one whose stamp is the earliest; where
/// no task is ready it chooses none.
pub fn dispatch_chooses_the_first()
    ensures first { (b : Base) (t : ℕ) → Precedes b t → chosen b ≡ t }
    ensures none { (b : Base) → NoneReady (is_ready b) b.order → chosen b ≡ 0 }
{}

/// The list of the ready tasks is in rising order of their priorities; each task that is ready stands in it as often as
/// in the order of stamps, and no other does, so that each stands in it once at most where that is so of the order; and
/// those of one priority stand in the order of their stamps.
pub fn the_ready_list_is_in_order()
    ensures rising { (b : Base) → IsRisingBy (current b) (ready_list b) }
    ensures stands { (b : Base) (t : ℕ) → times t (ready_list b) ≡ (if is_ready b t then times t b.order else 0) }
    ensures once { (b : Base) → IsOnce b.order → IsOnce (ready_list b) }
    ensures equals { (b : Base) (priority : ℕ) → filter (λ t. current b t == priority) (ready_list b) ≡ ready_of b priority }
{}

/// A task that is preempted keeps its place: a task that makes a call on tasks and stays ready, with the priority that it
/// has, stays the first of its equals, unless the call gives its place away by what it means. So does one that makes a
/// call on semaphores and event flags and stays ready. Neither a dispatch nor the end of a wait changes that.
pub fn preempted_task_keeps_its_place()
    ensures call { (b : Base) (t : ℕ) (call : TaskCall) → KeepsPlace b t → is_ready b t ≡ true →
        gives_place_away t call ≡ false →
        is_ready (task_call b (whos.Task t) call).base t ≡ true →
        current (task_call b (whos.Task t) call).base t ≡ current b t →
        KeepsPlace (task_call b (whos.Task t) call).base t }
    ensures family { (b : Base) (s : SemFlags) (t : ℕ) (call : SemFlagCall) → KeepsPlace b t → is_ready b t ≡ true →
        is_ready (sem_flag_call b s (whos.Task t) call).base t ≡ true →
        KeepsPlace (sem_flag_call b s (whos.Task t) call).base t }
    ensures dispatch { (b : Base) (t : ℕ) → KeepsPlace b t → KeepsPlace (dispatch b) t }
    ensures wait_ends { (b : Base) (t u : ℕ) (result : Answer) → KeepsPlace b t → is_ready b t ≡ true →
        KeepsPlace (release b u result) t }
{}

/// A task that becomes ready takes the latest stamp, so that every other one stands before it: when it is made ready and
/// when its wait ends, where it isn't suspended, and when the last of its suspensions is taken off while it doesn't wait.
pub fn released_task_stands_last()
    ensures started { (b : Base) (t : ℕ) (k : Task) → task_at b t ≡ Some k → k.suspensions ≡ 0 →
        StandsLast (make_ready b t) t }
    ensures wait_ends { (b : Base) (t : ℕ) (k : Task) (result : Answer) → task_at b t ≡ Some k →
        is_waiting_phase k.phase ≡ true → k.suspensions ≡ 0 → StandsLast (release b t result) t }
    ensures resumed { (b : Base) (t : ℕ) (k : Task) (all : Bool) → task_at b t ≡ Some k → k.phase ≡ Ready →
        0 < k.suspensions → suspensions_of (resume b t all) t ≡ 0 → StandsLast (resume b t all) t }
{}

/// A time-out falls due in its tick: a wait with a limit of n milliseconds that begins at a time is set for that time and
/// n + 1. While no more than n have passed, and nothing was taken meanwhile, it isn't what is due; with one more it is,
/// where all that was set before is later.
pub fn time_outs_fall_due_in_their_tick()
    ensures limit { (b : Base) (t object : ℕ) (order : Order) (n : ℕ) (k : Task) → task_at b t ≡ Some k →
        limit_of t (make_wait b t object order (pos n)).events ≡ Some (b.time + n + 1) }
    ensures goes_on { (b : Base) (t object : ℕ) (order : Order) (n passed : ℕ) (k : Task) → task_at b t ≡ Some k → passed ≤ n →
        let later = after_time passed (make_wait b t object order (pos n)) in
        due_event later.time later.events ≡ Some (Wait t) → ⊥ }
    ensures ends { (b : Base) (t object : ℕ) (order : Order) (n : ℕ) (k : Task) → task_at b t ≡ Some k → AreLater (b.time + n + 1) b.events →
        let later = after_time (n + 1) (make_wait b t object order (pos n)) in
        due_event later.time later.events ≡ Some (Wait t) }
{}

/// What is set falls due in order: nothing is due while all that is set is later, and the first is once its time has
/// come. What is set takes its place behind all that falls due by its time, and in front of all that is later, so that of
/// equals the one made first comes first.
pub fn events_fall_due_in_order()
    ensures none { (now : ℕ) (events : List DueEvent) → AreLater now events → due_event now events ≡ None }
    ensures first { (now : ℕ) (first : DueEvent) (rest : List DueEvent) → first.time ≤ now → due_event now (first ∷ rest) ≡ Some first.what }
    ensures set_behind { (event : DueEvent) (front behind : List DueEvent) → AreDueBy event.time front → AreLater event.time behind →
        insert_event event (front ++ behind) ≡ front ++ event ∷ behind }
{}

/// A call on tasks, or on semaphores and event flags, that is refused changes nothing: where a call answers a negative
/// value, which is an error, the base is as it was, and so are the tables of semaphores and event flags.
pub fn a_call_that_is_refused_changes_nothing()
    ensures tasks { (b : Base) (who : Who) (call : TaskCall) (answer : Answer) → (task_call b who call).outcome ≡ Returned answer →
        is_negative answer.value ≡ true → (task_call b who call).base ≡ b }
    ensures sem_flags { (b : Base) (s : SemFlags) (who : Who) (call : SemFlagCall) (answer : Answer) → (sem_flag_call b s who call).outcome ≡ Returned answer →
        is_negative answer.value ≡ true → ((sem_flag_call b s who call).base ≡ b) × ((sem_flag_call b s who call).table ≡ s) }
{}

/// A release ends one wait: it leaves every other task's row as it was, the task no longer waits, one task fewer waits
/// than before, where it waited, and in every queue the others stand as they stood.
pub fn a_release_ends_one_wait()
    ensures others { (b : Base) (t u : ℕ) (result : Answer) → (u ≡ t → ⊥) → task_at (release b t result) u ≡ task_at b u }
    ensures over { (b : Base) (t : ℕ) (result : Answer) → is_waiting (release b t result) t ≡ false }
    ensures one { (b : Base) (t : ℕ) (result : Answer) → is_waiting b t ≡ true → waiting_count b ≡ waiting_count (release b t result) + 1 }
    ensures queues { (order : Order) (b : Base) (t object : ℕ) (result : Answer) → queue order (release b t result) object ≡ without t (queue order b object) }
{}

/// A serving ends one wait: where a semaphore or an event flag serves a waiter, one task fewer waits than before.
pub fn a_serving_ends_one_wait()
    ensures semaphore { (b : Base) (s : SemFlags) (id : ℕ) (parts : SemFlagParts) → serve_sem b s id ≡ Some parts →
        waiting_count b ≡ waiting_count parts.base + 1 }
    ensures event_flag { (b : Base) (s : SemFlags) (id : ℕ) (parts : SemFlagParts) → serve_flag b s id ≡ Some parts →
        waiting_count b ≡ waiting_count parts.base + 1 }
{}

/// A waiting call is its trial: what a semaphore or an event flag decides for its caller is what comes of it when the
/// caller joins the waiters and the object serves one, if it can. The caller is ready, no end of a wait is set for it,
/// and it has a place in the table of what tasks ask for; and the object is settled: before the call it could serve
/// nobody.
pub fn a_waiting_call_is_its_trial()
    ensures semaphore { (b : Base) (s : SemFlags) (t id n : ℕ) (timeout : ℤ) (k : Semaphore) → MayWait b t →
        sem_at s id ≡ Some k → t < length s.counts → serve_sem b s id ≡ None →
        waited_for_sem b s t id n timeout (Some k) ≡ sem_trial b s t id n timeout k }
    ensures event_flag { (b : Base) (s : SemFlags) (t id : ℕ) (wish : FlagWish) (timeout : ℤ) (k : EventFlag) → MayWait b t →
        flag_at s id ≡ Some k → t < length s.wishes → serve_flag b s id ≡ None →
        waited_for_flag b s t id wish timeout (Some k) ≡ flag_trial b s t id wish timeout k }
{}

/// With a time-out of 0 a waiting call that isn't served changes nothing: where a semaphore doesn't have the count that
/// is asked for, or somebody stands before who has to be served first, and where an event flag doesn't have the bits, the
/// answer is E_TMOUT, and the base and the tables are as they were.
pub fn a_time_out_of_zero_changes_nothing()
    ensures semaphore { (b : Base) (s : SemFlags) (t id n : ℕ) (k : Semaphore) → serves_at_once b k id t n ≡ false →
        waited_for_sem b s t id n (pos 0) (Some k) ≡ record { base = b; table = s; outcome = failed er.TmOut } }
    ensures event_flag { (b : Base) (s : SemFlags) (t id : ℕ) (wish : FlagWish) (k : EventFlag) → has_bits k.pattern wish ≡ false →
        waited_for_flag b s t id wish (pos 0) (Some k) ≡ record { base = b; table = s; outcome = failed er.TmOut } }
{}
