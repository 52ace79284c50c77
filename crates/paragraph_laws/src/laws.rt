//! The law of the paragraph on waiting calls, the contract of a function that does nothing.

ghost use Rattle.std.specs.Prelude.{◌≡◌, ℕ, ◌<◌, ◌≤◌, ℤ, List, length, None, Some};
ghost use Rattle.tk_types.specs.declared.run.Mode.{Mode};
ghost use Rattle.kernel_model.specs.SemFlags.Trial.{MayWait, asked_count, asked_wish};
ghost use Rattle.kernel_model.specs.declared.objects.EventFlag.{EventFlag};
ghost use Rattle.kernel_model.specs.declared.objects.FlagWish.{FlagWish};
ghost use Rattle.kernel_model.specs.declared.objects.Semaphore.{Semaphore};
ghost use Rattle.kernel_model.specs.SemFlags.Calls.{waited_for_flag, waited_for_sem};
ghost use Rattle.kernel_model.specs.SemFlags.Tables.{flag_at, flag_object, sem_at, sem_object};
ghost use Rattle.object_model.specs.Mails.Tables.{Mailbox, MessageBuffer, box_at, box_object, buffer_at, receivers_object, senders_object};
ghost use Rattle.object_model.specs.Mails.Calls.{asked_into, asked_to_send, received_from_box, received_from_buffer, sent_to_buffer};
ghost use Rattle.object_model.specs.declared.mutexes.Mutex.{Mutex};
ghost use Rattle.object_model.specs.Mutexes.Calls.{waited_for_mutex};
ghost use Rattle.object_model.specs.Mutexes.Tables.{mutex_at, mutex_object};
ghost use Rattle.object_model.specs.Pools.Tables.{FixedPool, VariablePool, fixed_at, fixed_object, variable_at, variable_object};
ghost use Rattle.object_model.specs.Pools.Calls.{got_from_fixed, got_from_variable};
ghost use Rattle.pool_laws.specs.Blocks.{LieApart};
ghost use Rattle.pool_laws.specs.Trial.{asked_size};
ghost use Rattle.tk_types.specs.declared.script.Script.{Script};
ghost use Rattle.tk_types.specs.declared.task.Order.TheVariants.{Fifo};
ghost use Rattle.kernel_model.specs.Bodies.Statements.{IsRunnable};
ghost use Rattle.machine_model.specs.Runs.Reached.{Move, state_after};
ghost use Rattle.machine_model.specs.Events.Rest.{IsAtRest};
ghost use Rattle.machine_model.specs.States.Objects.{Parts, mail_parts, pool_parts};
ghost use Rattle.machine_model.specs.States.State.{State, parts_of};
ghost use Rattle.table_lemmas.specs.Short.{AreShort};
ghost use Rattle.paragraph_laws.specs.Kept.{IsSound, kept_paragraph, mutex_waits, settled_after};
ghost use Rattle.paragraph_laws.specs.Paragraph.{IsSettled, mail_waits, paragraph, pool_waits, sem_flag_waits};

/// A waiting call does what the paragraph on waiting calls says, with the whole of settling: the caller joins the waiters of its
/// object, all settles, and the call returns, is over or waits by whether that ended the caller's wait. The parts have settled
/// before the call, as those of every state at rest whose tables have no more slots than their objects have numbers (`rest`),
/// and so those of every state that a machine comes to (`short`, `reached`); and the caller is ready and has no end of a wait
/// set.
///
/// A message buffer may serve others with its caller, and after it: what a receive takes out makes room for the next sender. And
/// where a task waits for a mutex with inheritance, priorities change, so that others may be served, and where it gets a mutex
/// with a ceiling, its own does. So there the call with all that settles after it is the paragraph, in which 0, which is no task,
/// keeps the caller's old place among the stamps while others take new ones (`send`, `receive`, `lock`). The table has at most 256
/// slots for tasks and there are at most eight devices, no task and no mutex is 0, each task that waits has its places, and no
/// release is left to take, as in every state that a machine comes to (`sound`).
pub fn a_waiting_call_is_the_paragraph()
    ensures rest { (mode : Mode) (st : State) → IsAtRest mode st → AreShort st.objects → IsSettled mode (parts_of st) }
    ensures short { (script : Script) (mode : Mode) (budget : ℕ) (moves : List Move) → IsRunnable script → AreShort (state_after script mode budget moves).objects }
    ensures reached { (script : Script) (mode : Mode) (budget : ℕ) (moves : List Move) → IsRunnable script →
        IsSettled mode (parts_of (state_after script mode budget moves)) }
    ensures sound { (script : Script) (mode : Mode) (budget : ℕ) (moves : List Move) → IsRunnable script →
        IsSound (parts_of (state_after script mode budget moves)) }
    ensures semaphore { (mode : Mode) (p : Parts) (t id n : ℕ) (timeout : ℤ) (k : Semaphore) → IsSettled mode p → MayWait p.base t → 1 ≤ id →
        sem_at p.objects.sem_flags id ≡ Some k → t < length p.objects.sem_flags.counts →
        sem_flag_waits p (waited_for_sem p.base p.objects.sem_flags t id n timeout (Some k)) ≡
        paragraph mode p t (sem_object id) k.order timeout (record p.objects { sem_flags = asked_count p.objects.sem_flags t n }) }
    ensures flag { (mode : Mode) (p : Parts) (t id : ℕ) (wish : FlagWish) (timeout : ℤ) (k : EventFlag) → IsSettled mode p → MayWait p.base t → 1 ≤ id →
        flag_at p.objects.sem_flags id ≡ Some k → t < length p.objects.sem_flags.wishes →
        sem_flag_waits p (waited_for_flag p.base p.objects.sem_flags t id wish timeout (Some k)) ≡
        paragraph mode p t (flag_object id) k.order timeout (record p.objects { sem_flags = asked_wish p.objects.sem_flags t wish }) }
    ensures mailbox { (mode : Mode) (p : Parts) (t id : ℕ) (timeout : ℤ) (k : Mailbox) → IsSettled mode p → MayWait p.base t → 1 ≤ id →
        box_at p.objects.mails id ≡ Some k →
        mail_waits p (received_from_box (mail_parts p) t id timeout (Some k)) ≡ paragraph mode p t (box_object id) k.order timeout p.objects }
    ensures fixed { (mode : Mode) (p : Parts) (t id : ℕ) (timeout : ℤ) (k : FixedPool) → IsSettled mode p → MayWait p.base t → 1 ≤ id →
        fixed_at p.objects.pools id ≡ Some k →
        pool_waits p (got_from_fixed (pool_parts p) t id timeout (Some k)) ≡ paragraph mode p t (fixed_object id) k.order timeout p.objects }
    ensures variable { (mode : Mode) (p : Parts) (t id n : ℕ) (timeout : ℤ) (k : VariablePool) → IsSettled mode p → MayWait p.base t → 1 ≤ id →
        variable_at p.objects.pools id ≡ Some k → LieApart k → 0 < n → t < length p.objects.pools.sizes →
        pool_waits p (got_from_variable (pool_parts p) t id n timeout (Some k)) ≡
        paragraph mode p t (variable_object id) k.order timeout (record p.objects { pools = asked_size p.objects.pools t n }) }
    ensures send { (mode : Mode) (p : Parts) (t id : ℕ) (bytes : List ℕ) (timeout : ℤ) (k : MessageBuffer) → IsSettled mode p → IsSound p → MayWait p.base t → 1 ≤ id →
        buffer_at p.objects.mails id ≡ Some k → t < length p.objects.mails.sending →
        settled_after mode (mail_waits p (sent_to_buffer (mail_parts p) t id bytes timeout (Some k))) ≡
        kept_paragraph mode p t (senders_object id) k.order timeout (record p.objects { mails = asked_to_send p.objects.mails t bytes }) }
    ensures receive { (mode : Mode) (p : Parts) (t id address : ℕ) (timeout : ℤ) (k : MessageBuffer) → IsSettled mode p → IsSound p → MayWait p.base t → 1 ≤ id →
        buffer_at p.objects.mails id ≡ Some k → t < length p.objects.mails.into →
        settled_after mode (mail_waits p (received_from_buffer (mail_parts p) t id address timeout (Some k))) ≡
        kept_paragraph mode p t (receivers_object id) Fifo timeout (record p.objects { mails = asked_into p.objects.mails t address }) }
    ensures lock { (mode : Mode) (p : Parts) (t id : ℕ) (timeout : ℤ) (k : Mutex) → IsSettled mode p → IsSound p → MayWait p.base t → 1 ≤ id → mutex_at p.objects.mutexes id ≡ Some k →
        settled_after mode (mutex_waits p (waited_for_mutex p.base p.objects.mutexes t id timeout (Some k))) ≡
        kept_paragraph mode p t (mutex_object id) k.order timeout p.objects }
{}
