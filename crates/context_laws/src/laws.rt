//! Laws of the definitions, each the contract of a function that does nothing.

ghost use Rattle.std.specs.Prelude.{◌≡◌, ℕ, ◌+◌, ◌-◌, ◌*◌, ◌%◌, ◌^◌, ◌<◌, ◌≤◌, ◌==◌, ◌&&◌, if◌then◌else◌, Bool, true, false, ℤ, pos, List, [], ◌∷◌, length, Option, Some, None};
ghost use Rattle.std.specs.Int.{cast_unsigned, is_negative, w32};
ghost use Rattle.tk_types.specs.declared.answer.Answer.{Answer};
ghost use Rattle.tk_types.specs.declared.answer.Outcome.TheVariants.{Entered, Returned};
ghost use Rattle.tk_types.specs.declared.answer.Who.{Who};
ghost use Rattle.tk_types.specs.declared.answer.Who.TheVariants as whos;
ghost use Rattle.tk_types.specs.declared.calls.ContextCall.{ContextCall};
ghost use Rattle.tk_types.specs.declared.calls.ContextCall.TheVariants as context;
ghost use Rattle.tk_types.specs.declared.calls.HookCall.{HookCall};
ghost use Rattle.tk_types.specs.declared.calls.HookCall.TheVariants as hook;
ghost use Rattle.tk_types.specs.declared.calls.TimeCall.{TimeCall};
ghost use Rattle.tk_types.specs.declared.calls.TimeCall.TheVariants as time;
ghost use Rattle.tk_types.specs.declared.error_code.Er.TheVariants as er;
ghost use Rattle.tk_types.specs.declared.modes.Attributes.{Attributes};
ghost use Rattle.tk_types.specs.declared.task.DueEvent.{DueEvent};
ghost use Rattle.tk_types.specs.declared.task.Event.{Event};
ghost use Rattle.tk_types.specs.declared.task.Event.TheVariants.{Alarm, Cyclic, Wait};
ghost use Rattle.tk_types.specs.declared.task.Order.{Order};
ghost use Rattle.kernel_model.specs.LawWords.Once.{IsOnce, times};
ghost use Rattle.kernel_model.specs.LawWords.Rising.{IsRisingBy};
ghost use Rattle.kernel_model.specs.LawWords.TimeOrder.{AreInTimeOrder, AreLater, after_time};
ghost use Rattle.kernel_model.specs.SemFlags.Tables.{flag_object, sem_object};
ghost use Rattle.kernel_model.specs.Tasks.Base.{Base, add_event, advance, drop_wait, queue, ready_of, set_flags, take_due, waits_for};
ghost use Rattle.kernel_model.specs.Tasks.Queues.{queue_at};
ghost use Rattle.kernel_model.specs.Tasks.Waits.{HavePlaces, StandInOrder};
ghost use Rattle.kernel_model.specs.Words.Checks.{answer, failed, natural, plain, within};
ghost use Rattle.object_model.specs.Mails.Tables.{box_object, has_mbf, has_mbx, receivers_object, senders_object};
ghost use Rattle.object_model.specs.Mutexes.Tables.{has_mutex, mutex_object};
ghost use Rattle.object_model.specs.Pools.Tables.{fixed_object, has_mpf, has_mpl, variable_object};
ghost use Rattle.context_model.specs.declared.cyclic_row.CyclicRow.{CyclicRow};
ghost use Rattle.context_model.specs.Clocks.Calls.{time_call};
ghost use Rattle.context_model.specs.Clocks.Phases.{AreInPhase, ArePeriodic, set_count, sets_time};
ghost use Rattle.context_model.specs.Clocks.Tables.{Clocks, again, clocks_start, cyclic_at, due_time, halves, has_alm, has_cyc, is_set, next_due, system_time};
ghost use Rattle.context_model.specs.Contexts.Calls.{context_call};
ghost use Rattle.context_model.specs.Contexts.Tables.{Contexts, depth_in, handler_of, has_ssy, left, service_of};
ghost use Rattle.context_model.specs.Hooks.Calls.{hook_call};
ghost use Rattle.context_model.specs.Hooks.Lists.{existing, has_flag, has_sem, has_task};
ghost use Rattle.context_model.specs.Hooks.Readings.{AreListed};
ghost use Rattle.context_model.specs.Hooks.Tables.{Hooks, Views};

/// The times of a phase are the first one and those that lie a whole number of periods behind it. The next one is one of
/// these, it is later than now, and none of them that is later than now comes before it.
pub fn the_next_time_of_a_phase_is_the_least_to_come()
    ensures phase { (first period now : ℕ) → (n : ℕ) × (next_due first period now ≡ first + n * period) }
    ensures later { (first period now : ℕ) → 1 ≤ period → now < next_due first period now }
    ensures least { (first period now n : ℕ) → 1 ≤ period → now < first + n * period → next_due first period now ≤ first + n * period }
{}

/// When cyclic handlers fall due. One that is created takes an ID that was free; its first time is that of its creation, its
/// phase and one millisecond, and it is set for that where TA_STA says so. A start of one that keeps its phase sets it for
/// the next time of its phase, or leaves it as it is set; a start of another one sets it for its period from now on. One
/// that falls due is set for its period later.
pub fn a_cyclic_handler_falls_due_by_its_row()
    ensures created { (b : Base) (c : Clocks) (a : Attributes) (body period phase id : ℕ) → 1 ≤ id →
        let made = time_call b c (time.CreCyc a body (pos period) (pos phase)) in
        let first = b.time + phase + 1 in
        made.outcome ≡ Returned (plain (pos id)) →
        (cyclic_at c id ≡ None)
        × (cyclic_at made.table id ≡ Some (record { body = body; phased = a.ta_phs; period = period; first = first }))
        × (due_time (Cyclic id) made.base.events ≡ (if a.ta_sta then Some first else due_time (Cyclic id) b.events)) }
    ensures starts_next { (b : Base) (c : Clocks) (id : ℕ) (k : CyclicRow) → 1 ≤ id → id ≤ 64 → cyclic_at c id ≡ Some k → k.phased ≡ true →
        is_set (Cyclic id) b.events ≡ false →
        due_time (Cyclic id) (time_call b c (time.StaCyc (pos id))).base.events ≡ Some (next_due k.first k.period b.time) }
    ensures goes_on { (b : Base) (c : Clocks) (id : ℕ) (k : CyclicRow) → 1 ≤ id → id ≤ 64 → cyclic_at c id ≡ Some k → k.phased ≡ true →
        is_set (Cyclic id) b.events ≡ true → (time_call b c (time.StaCyc (pos id))).base ≡ b }
    ensures begins_anew { (b : Base) (c : Clocks) (id : ℕ) (k : CyclicRow) → 1 ≤ id → id ≤ 64 → cyclic_at c id ≡ Some k → k.phased ≡ false →
        due_time (Cyclic id) (time_call b c (time.StaCyc (pos id))).base.events ≡ Some (b.time + k.period + 1) }
    ensures set_again { (b : Base) (c : Clocks) (id : ℕ) (k : CyclicRow) → cyclic_at c id ≡ Some k →
        due_time (Cyclic id) (again b c (Cyclic id)).events ≡ Some (b.time + k.period) }
{}

/// A cyclic handler that keeps its phase is set, if it is, for its first time or for one that lies a whole number of periods
/// behind that, and where there is no handler none is set. So it is at the start, every call on time leaves it so, and so
/// do the beginning and the end of a wait, and a tick: what falls due at its time is taken, and set again where it is a
/// cyclic handler.
pub fn cyclic_handlers_keep_their_phase()
    ensures start { AreInPhase clocks_start [] }
    ensures calls { (b : Base) (c : Clocks) (call : TimeCall) → AreInPhase c b.events → AreInPhase (time_call b c call).table (time_call b c call).base.events }
    ensures waits { (c : Clocks) (b : Base) (t due : ℕ) → AreInPhase c b.events → AreInPhase c (add_event b due (Wait t)).events × AreInPhase c (drop_wait b t).events }
    ensures tick { (b : Base) (c : Clocks) (event : DueEvent) (rest : List DueEvent) → b.events ≡ event ∷ rest → event.time ≡ b.time →
        AreInPhase c b.events → AreInPhase c (again (take_due b) c event.what).events }
{}

/// A handler is set for one time at most: every call on time leaves it so, and so does a tick. An alarm handler that is
/// started is set for its delay and one millisecond from now on, in place of what it was set for; and where a handler was
/// stopped or deleted, none is left.
pub fn a_handler_is_set_once_at_most()
    ensures calls { (b : Base) (c : Clocks) (call : TimeCall) (what : Event) → set_count what b.events ≤ 1 → set_count what (time_call b c call).base.events ≤ 1 }
    ensures tick { (b : Base) (c : Clocks) (due what : Event) → set_count what b.events ≤ 1 → set_count what (again (take_due b) c due).events ≤ 1 }
    ensures alarm { (b : Base) (c : Clocks) (id delay : ℕ) → 1 ≤ id → id ≤ 64 → has_alm c id ≡ true →
        due_time (Alarm id) (time_call b c (time.StaAlm (pos id) (pos delay))).base.events ≡ Some (b.time + delay + 1) }
    ensures stopped_cyclic { (b : Base) (c : Clocks) (id : ℕ) → 1 ≤ id → id ≤ 64 → has_cyc c id ≡ true →
        is_set (Cyclic id) (time_call b c (time.StpCyc (pos id))).base.events ≡ false }
    ensures deleted_cyclic { (b : Base) (c : Clocks) (id : ℕ) → 1 ≤ id → id ≤ 64 → has_cyc c id ≡ true →
        is_set (Cyclic id) (time_call b c (time.DelCyc (pos id))).base.events ≡ false }
    ensures stopped_alarm { (b : Base) (c : Clocks) (id : ℕ) → 1 ≤ id → id ≤ 64 → has_alm c id ≡ true →
        is_set (Alarm id) (time_call b c (time.StpAlm (pos id))).base.events ≡ false }
    ensures deleted_alarm { (b : Base) (c : Clocks) (id : ℕ) → 1 ≤ id → id ≤ 64 → has_alm c id ≡ true →
        is_set (Alarm id) (time_call b c (time.DelAlm (pos id))).base.events ≡ false }
{}

/// What a call on time sets falls due later than now, and so does a cyclic handler that is set again, since each period is a
/// millisecond at least; and all that is set stays in the order of due times. So a tick, which adds one millisecond, takes
/// what is set for just that time.
pub fn what_is_set_is_later_than_now()
    ensures start { ArePeriodic clocks_start }
    ensures periods { (b : Base) (c : Clocks) (call : TimeCall) → ArePeriodic c → ArePeriodic (time_call b c call).table }
    ensures calls { (b : Base) (c : Clocks) (call : TimeCall) → ArePeriodic c → AreLater b.time b.events → AreLater b.time (time_call b c call).base.events }
    ensures set_again { (b : Base) (c : Clocks) (what : Event) → ArePeriodic c → AreLater b.time b.events → AreLater b.time (again b c what).events }
    ensures order { (b : Base) (c : Clocks) (call : TimeCall) → ArePeriodic c → AreInTimeOrder b.events → AreInTimeOrder (time_call b c call).base.events }
    ensures order_again { (b : Base) (c : Clocks) (what : Event) → ArePeriodic c → AreInTimeOrder b.events → AreInTimeOrder (again b c what).events }
{}

/// A call on time changes nothing of the base but what is set for a time, and makes one event at most; so does a handler that
/// is set again. A call on contexts changes nothing of the base but what delays dispatching, and not whether a handler runs.
pub fn calls_on_time_and_contexts_touch_no_task()
    ensures time { (b : Base) (c : Clocks) (call : TimeCall) →
        let after = (time_call b c call).base in
        (after ≡ record b { events = after.events; made = after.made }) × (after.made ≤ b.made + 1) }
    ensures set_again { (b : Base) (c : Clocks) (what : Event) →
        let after = again b c what in
        (after ≡ record b { events = after.events; made = after.made }) × (after.made ≤ b.made + 1) }
    ensures contexts { (b : Base) (c : Contexts) (who : Who) (call : ContextCall) →
        let after = (context_call b c who call).base in
        (after ≡ set_flags b after.flags) × (after.flags.handler ≡ b.flags.handler) }
{}

/// The system time is what it was set to and the milliseconds that have passed since: so many after `tk_set_tim`,
/// `tk_get_tim` answers that sum, and `tk_get_otm` the operating time. The two fields of an answer are the halves of the
/// time, which together are it modulo 2^64. No other call on time changes the system time, nor does a handler that is set
/// again, and a millisecond adds one to it.
pub fn the_system_time_goes_on_from_what_it_was_set_to()
    ensures passed { (b : Base) (c : Clocks) (high : ℕ) (low : ℤ) (n : ℕ) →
        let set = time_call b c (time.SetTim (pos high) low) in
        (time_call (after_time n set.base) set.table time.GetTim).outcome ≡ Returned (answer (pos 0) (halves (2 ^ 32 * high + cast_unsigned w32 low + n))) }
    ensures operating { (b : Base) (c : Clocks) (n : ℕ) → (time_call (after_time n b) c time.GetOtm).outcome ≡ Returned (answer (pos 0) (halves (b.time + n))) }
    ensures halves { (now : ℕ) (high low : ℤ) → halves now ≡ high ∷ low ∷ [] → 2 ^ 32 * cast_unsigned w32 high + cast_unsigned w32 low ≡ now % 2 ^ 64 }
    ensures calls { (b : Base) (c : Clocks) (call : TimeCall) → sets_time call ≡ false →
        system_time (time_call b c call).base (time_call b c call).table ≡ system_time b c }
    ensures set_again { (b : Base) (c : Clocks) (what : Event) → system_time (again b c what) c ≡ system_time b c }
    ensures millisecond { (b : Base) (c : Clocks) → c.set_at ≤ b.time → system_time (advance b) c ≡ system_time b c + 1 }
{}

/// A task that enters a service was in fewer than eight and is in one more then; base and all other depths stay, and when it
/// leaves the service, the table is as it was before. A ninth is refused with E_LIMIT. Who leaves one service is in one
/// less, who leaves all is in none, and the others stay. Through every call, and at every leaving, each task is in eight
/// services at most.
pub fn services_nest_eight_deep_at_most()
    ensures enters { (b : Base) (c : Contexts) (t : ℕ) (number value : ℤ) (body : ℕ) →
        let entered = context_call b c (whos.Task t) (context.Svc number value) in
        entered.outcome ≡ Entered body →
        (depth_in c t < 8)
        × (body ≡ service_of c (natural number))
        × (entered.base ≡ b)
        × (t < length c.depths → depth_in entered.table t ≡ depth_in c t + 1)
        × ((u : ℕ) → (u ≡ t → ⊥) → depth_in entered.table u ≡ depth_in c u)
        × (t < length c.depths → left entered.table t false ≡ c) }
    ensures ninth { (b : Base) (c : Contexts) (t number value : ℕ) → has_ssy c number ≡ true → depth_in c t ≡ 8 →
        (context_call b c (whos.Task t) (context.Svc (pos number) (pos value))).outcome ≡ failed er.Limit }
    ensures leaves_one { (c : Contexts) (t : ℕ) → t < length c.depths → depth_in (left c t false) t ≡ depth_in c t - 1 }
    ensures leaves_all { (c : Contexts) (t : ℕ) → t < length c.depths → depth_in (left c t true) t ≡ 0 }
    ensures others { (c : Contexts) (t u : ℕ) (all : Bool) → (u ≡ t → ⊥) → depth_in (left c t all) u ≡ depth_in c u }
    ensures calls { (b : Base) (c : Contexts) (who : Who) (call : ContextCall) → ((t : ℕ) → depth_in c t ≤ 8) → (t : ℕ) → depth_in (context_call b c who call).table t ≤ 8 }
    ensures leaving { (c : Contexts) (t : ℕ) (all : Bool) → ((u : ℕ) → depth_in c u ≤ 8) → (u : ℕ) → depth_in (left c t all) u ≤ 8 }
{}

/// What is defined for an interrupt or a subsystem stands for its number from then on, and for no other: a handler may take
/// the place of another one, but a subsystem is defined only where there is none, and undefined where there is one.
pub fn a_definition_stands_for_its_number_alone()
    ensures handler { (b : Base) (c : Contexts) (who : Who) (number body : ℕ) → length c.handlers ≡ 256 → 1 ≤ number → number ≤ 255 →
        handler_of (context_call b c who (context.DefInt (pos number) body)).table number ≡ body }
    ensures other_handlers { (b : Base) (c : Contexts) (who : Who) (number other body : ℕ) → 1 ≤ number → number ≤ 255 → (other ≡ number → ⊥) →
        handler_of (context_call b c who (context.DefInt (pos number) body)).table other ≡ handler_of c other }
    ensures service { (b : Base) (c : Contexts) (who : Who) (number body : ℕ) → length c.services ≡ 256 → 1 ≤ number → number ≤ 255 →
        has_ssy c number ≡ (body == 0) → service_of (context_call b c who (context.DefSsy (pos number) body)).table number ≡ body }
    ensures other_services { (b : Base) (c : Contexts) (who : Who) (number other body : ℕ) → 1 ≤ number → number ≤ 255 →
        has_ssy c number ≡ (body == 0) → (other ≡ number → ⊥) →
        service_of (context_call b c who (context.DefSsy (pos number) body)).table other ≡ service_of c other }
{}

/// The list of those that exist has each ID from 1 to the greatest that exists, once, and no other, and the IDs rise.
pub fn those_that_exist_are_listed_in_rising_order()
    ensures stands { (exists : ℕ → Bool) (greatest id : ℕ) → times id (existing exists greatest) ≡ (if within 1 greatest (pos id) && exists id then 1 else 0) }
    ensures rising { (exists : ℕ → Bool) (greatest : ℕ) → IsRisingBy (λ id. id) (existing exists greatest) }
{}

/// A call that lists a kind answers how many there are, and writes their IDs, as many as have a place: from the address on
/// they are read back, and no other byte has changed.
pub fn a_list_has_the_ids_that_exist()
    ensures tasks { (v : Views) (hooks : Hooks) (memory : List ℕ) (who : Who) (address most : ℕ) → length memory ≡ 65536 → address + 4 * most ≤ 65536 →
        AreListed (existing (has_task v.base) 255) hooks memory address most (hook_call v hooks memory who (hook.LstTsk (pos address) (pos most))) }
    ensures semaphores { (v : Views) (hooks : Hooks) (memory : List ℕ) (who : Who) (address most : ℕ) → length memory ≡ 65536 → address + 4 * most ≤ 65536 →
        AreListed (existing (has_sem v.sem_flags) 64) hooks memory address most (hook_call v hooks memory who (hook.LstSem (pos address) (pos most))) }
    ensures flags { (v : Views) (hooks : Hooks) (memory : List ℕ) (who : Who) (address most : ℕ) → length memory ≡ 65536 → address + 4 * most ≤ 65536 →
        AreListed (existing (has_flag v.sem_flags) 64) hooks memory address most (hook_call v hooks memory who (hook.LstFlg (pos address) (pos most))) }
    ensures mailboxes { (v : Views) (hooks : Hooks) (memory : List ℕ) (who : Who) (address most : ℕ) → length memory ≡ 65536 → address + 4 * most ≤ 65536 →
        AreListed (existing (has_mbx v.mails) 64) hooks memory address most (hook_call v hooks memory who (hook.LstMbx (pos address) (pos most))) }
    ensures mutexes { (v : Views) (hooks : Hooks) (memory : List ℕ) (who : Who) (address most : ℕ) → length memory ≡ 65536 → address + 4 * most ≤ 65536 →
        AreListed (existing (has_mutex v.mutexes) 64) hooks memory address most (hook_call v hooks memory who (hook.LstMtx (pos address) (pos most))) }
    ensures buffers { (v : Views) (hooks : Hooks) (memory : List ℕ) (who : Who) (address most : ℕ) → length memory ≡ 65536 → address + 4 * most ≤ 65536 →
        AreListed (existing (has_mbf v.mails) 64) hooks memory address most (hook_call v hooks memory who (hook.LstMbf (pos address) (pos most))) }
    ensures fixed_pools { (v : Views) (hooks : Hooks) (memory : List ℕ) (who : Who) (address most : ℕ) → length memory ≡ 65536 → address + 4 * most ≤ 65536 →
        AreListed (existing (has_mpf v.pools) 64) hooks memory address most (hook_call v hooks memory who (hook.LstMpf (pos address) (pos most))) }
    ensures variable_pools { (v : Views) (hooks : Hooks) (memory : List ℕ) (who : Who) (address most : ℕ) → length memory ≡ 65536 → address + 4 * most ≤ 65536 →
        AreListed (existing (has_mpl v.pools) 64) hooks memory address most (hook_call v hooks memory who (hook.LstMpl (pos address) (pos most))) }
    ensures cyclic_handlers { (v : Views) (hooks : Hooks) (memory : List ℕ) (who : Who) (address most : ℕ) → length memory ≡ 65536 → address + 4 * most ≤ 65536 →
        AreListed (existing (has_cyc v.clocks) 64) hooks memory address most (hook_call v hooks memory who (hook.LstCyc (pos address) (pos most))) }
    ensures alarm_handlers { (v : Views) (hooks : Hooks) (memory : List ℕ) (who : Who) (address most : ℕ) → length memory ≡ 65536 → address + 4 * most ≤ 65536 →
        AreListed (existing (has_alm v.clocks) 64) hooks memory address most (hook_call v hooks memory who (hook.LstAlm (pos address) (pos most))) }
    ensures subsystems { (v : Views) (hooks : Hooks) (memory : List ℕ) (who : Who) (address most : ℕ) → length memory ≡ 65536 → address + 4 * most ≤ 65536 →
        AreListed (existing (has_ssy v.contexts) 255) hooks memory address most (hook_call v hooks memory who (hook.LstSsy (pos address) (pos most))) }
{}

/// A call that lists a queue answers how many tasks wait, and writes their IDs in the order of the queue, as many as have a
/// place; so does the call that lists the ready tasks of a priority, in the order of their stamps.
pub fn a_list_of_tasks_has_them_in_order()
    ensures ready { (v : Views) (hooks : Hooks) (memory : List ℕ) (who : Who) (priority address most : ℕ) → length v.base.tasks ≡ 256 → length memory ≡ 65536 → address + 4 * most ≤ 65536 →
        1 ≤ priority → priority ≤ 140 →
        AreListed (ready_of v.base priority) hooks memory address most (hook_call v hooks memory who (hook.RdyQue (pos priority) (pos address) (pos most))) }
    ensures semaphore { (v : Views) (hooks : Hooks) (memory : List ℕ) (who : Who) (id address most : ℕ) → length v.base.tasks ≡ 256 → length memory ≡ 65536 → address + 4 * most ≤ 65536 →
        1 ≤ id → id ≤ 64 → has_sem v.sem_flags id ≡ true →
        AreListed (queue_at v.base (sem_object id)) hooks memory address most (hook_call v hooks memory who (hook.SemQue (pos id) (pos address) (pos most))) }
    ensures flag { (v : Views) (hooks : Hooks) (memory : List ℕ) (who : Who) (id address most : ℕ) → length v.base.tasks ≡ 256 → length memory ≡ 65536 → address + 4 * most ≤ 65536 →
        1 ≤ id → id ≤ 64 → has_flag v.sem_flags id ≡ true →
        AreListed (queue_at v.base (flag_object id)) hooks memory address most (hook_call v hooks memory who (hook.FlgQue (pos id) (pos address) (pos most))) }
    ensures mailbox { (v : Views) (hooks : Hooks) (memory : List ℕ) (who : Who) (id address most : ℕ) → length v.base.tasks ≡ 256 → length memory ≡ 65536 → address + 4 * most ≤ 65536 →
        1 ≤ id → id ≤ 64 → has_mbx v.mails id ≡ true →
        AreListed (queue_at v.base (box_object id)) hooks memory address most (hook_call v hooks memory who (hook.MbxQue (pos id) (pos address) (pos most))) }
    ensures mutex { (v : Views) (hooks : Hooks) (memory : List ℕ) (who : Who) (id address most : ℕ) → length v.base.tasks ≡ 256 → length memory ≡ 65536 → address + 4 * most ≤ 65536 →
        1 ≤ id → id ≤ 64 → has_mutex v.mutexes id ≡ true →
        AreListed (queue_at v.base (mutex_object id)) hooks memory address most (hook_call v hooks memory who (hook.MtxQue (pos id) (pos address) (pos most))) }
    ensures senders { (v : Views) (hooks : Hooks) (memory : List ℕ) (who : Who) (id address most : ℕ) → length v.base.tasks ≡ 256 → length memory ≡ 65536 → address + 4 * most ≤ 65536 →
        1 ≤ id → id ≤ 64 → has_mbf v.mails id ≡ true →
        AreListed (queue_at v.base (senders_object id)) hooks memory address most (hook_call v hooks memory who (hook.SmbfQue (pos id) (pos address) (pos most))) }
    ensures receivers { (v : Views) (hooks : Hooks) (memory : List ℕ) (who : Who) (id address most : ℕ) → length v.base.tasks ≡ 256 → length memory ≡ 65536 → address + 4 * most ≤ 65536 →
        1 ≤ id → id ≤ 64 → has_mbf v.mails id ≡ true →
        AreListed (queue_at v.base (receivers_object id)) hooks memory address most (hook_call v hooks memory who (hook.RmbfQue (pos id) (pos address) (pos most))) }
    ensures fixed_pool { (v : Views) (hooks : Hooks) (memory : List ℕ) (who : Who) (id address most : ℕ) → length v.base.tasks ≡ 256 → length memory ≡ 65536 → address + 4 * most ≤ 65536 →
        1 ≤ id → id ≤ 64 → has_mpf v.pools id ≡ true →
        AreListed (queue_at v.base (fixed_object id)) hooks memory address most (hook_call v hooks memory who (hook.MpfQue (pos id) (pos address) (pos most))) }
    ensures variable_pool { (v : Views) (hooks : Hooks) (memory : List ℕ) (who : Who) (id address most : ℕ) → length v.base.tasks ≡ 256 → length memory ≡ 65536 → address + 4 * most ≤ 65536 →
        1 ≤ id → id ≤ 64 → has_mpl v.pools id ≡ true →
        AreListed (queue_at v.base (variable_object id)) hooks memory address most (hook_call v hooks memory who (hook.MplQue (pos id) (pos address) (pos most))) }
{}

/// The queue that is listed stands in the order that is the object's, where all tasks that wait queue as the orders of their
/// objects say; and each task that waits for the object stands in it once, and no other does.
pub fn a_queue_is_listed_in_its_order()
    ensures order { (orders : ℕ → Option Order) (b : Base) (object : ℕ) (order : Order) → StandInOrder orders b → HavePlaces b → orders object ≡ Some order →
        queue_at b object ≡ queue order b object }
    ensures stands { (b : Base) (object t : ℕ) → IsOnce b.order → IsOnce b.since → HavePlaces b → times t (queue_at b object) ≡ (if waits_for b object t then 1 else 0) }
{}

/// A call on time, on contexts or on hooks that is refused changes nothing: where it answers a negative value, which is an
/// error, base, table, hooks and memory are as they were.
pub fn a_call_that_is_refused_changes_nothing()
    ensures time { (b : Base) (c : Clocks) (call : TimeCall) (answer : Answer) → (time_call b c call).outcome ≡ Returned answer →
        is_negative answer.value ≡ true → ((time_call b c call).base ≡ b) × ((time_call b c call).table ≡ c) }
    ensures contexts { (b : Base) (c : Contexts) (who : Who) (call : ContextCall) (answer : Answer) → (context_call b c who call).outcome ≡ Returned answer →
        is_negative answer.value ≡ true → ((context_call b c who call).base ≡ b) × ((context_call b c who call).table ≡ c) }
    ensures hooks { (v : Views) (hooks : Hooks) (memory : List ℕ) (who : Who) (call : HookCall) (answer : Answer) → (hook_call v hooks memory who call).outcome ≡ Returned answer →
        is_negative answer.value ≡ true → ((hook_call v hooks memory who call).hooks ≡ hooks) × ((hook_call v hooks memory who call).memory ≡ memory) }
{}
