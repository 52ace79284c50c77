//! Laws of the definitions, each the contract of a function that does nothing.

ghost use Rattle.std.specs.Prelude.{◌≡◌, ℕ, ◌<◌, ◌≤◌, ◌⊎◌, ◌++◌, ◌∷◌, [], Bool, drop, false, filter, length, List, not, option_map, pos, true, None, Some, ℤ};
ghost use Rattle.std.specs.Int.{is_negative};
ghost use Rattle.tk_types.specs.declared.answer.Answer.{Answer};
ghost use Rattle.tk_types.specs.declared.answer.Outcome.TheVariants.{Returned};
ghost use Rattle.tk_types.specs.declared.answer.Who.{Who};
ghost use Rattle.tk_types.specs.declared.answer.Who.TheVariants as whos;
ghost use Rattle.tk_types.specs.declared.calls.MutexCall.{MutexCall};
ghost use Rattle.tk_types.specs.declared.calls.TaskCall.{TaskCall};
ghost use Rattle.tk_types.specs.declared.calls.TaskCall.TheVariants.{ChgPri};
ghost use Rattle.tk_types.specs.declared.error_code.Er.TheVariants as er;
ghost use Rattle.tk_types.specs.declared.task.Task.{Task};
ghost use Rattle.kernel_model.specs.LawWords.Once.{IsOnce};
ghost use Rattle.kernel_model.specs.LawWords.Precedence.{KeepsPlace};
ghost use Rattle.kernel_model.specs.SemFlags.Trial.{MayWait};
ghost use Rattle.kernel_model.specs.Tasks.Base.{Base, base_of, current, is_dormant, is_ready, release, task_at, waits_for};
ghost use Rattle.kernel_model.specs.Tasks.Calls.{named, new_base, task_call};
ghost use Rattle.kernel_model.specs.Words.Checks.{failed, plain};
ghost use Rattle.kernel_model.specs.Words.Orders.{taken_from};
ghost use Rattle.object_model.specs.declared.mutexes.Mutex.{Mutex};
ghost use Rattle.object_model.specs.Mutexes.Calls.{mutex_call, task_call_beside, waited_for_mutex};
ghost use Rattle.object_model.specs.Mutexes.Priority.{chain_has, current_of, is_alive, next_in_chain, own, resettle};
ghost use Rattle.object_model.specs.Mutexes.Tables.{MutexParts, Mutexes, awaited, ceiling_allows, ceiling_of, free_last, held, locked, mutex_at, mutex_object, mutex_waiters, mutexes_start, owner_of, serve_mutex, serve_mutexes};
ghost use Rattle.mutex_laws.specs.Chains.{InChain, IsLeast, IsOwn, WaitsForHeir, is_stale};
ghost use Rattle.mutex_laws.specs.Owners.{GivesUp, HoldsOrAwaits, IsAboveCeiling, IsFirstServed, IsLastFreed, IsServed};
ghost use Rattle.mutex_laws.specs.Tables.{AreInOrder, IsCaller};
ghost use Rattle.mutex_laws.specs.Trial.{mutex_trial};

/// What the definition finds in a chain within 255 tasks behind its first is what stands there: nothing else is found, and
/// nothing is missed, since all that have a next one have IDs below 256. So a chain that comes to one of its tasks again,
/// as where tasks wait for each other's mutexes in a circle, is looked at to its end.
pub fn what_is_found_is_the_chain()
    ensures found { (next : ℕ → ℕ) (t u n : ℕ) → chain_has next t n u ≡ true → InChain next t u }
    ensures missed { (next : ℕ → ℕ) (t u : ℕ) → ((v : ℕ) → (next v ≡ 0 → ⊥) → v < 256) → t < 256 → InChain next t u → chain_has next t 255 u ≡ true }
{}

/// The current priority of a task by definition is the highest, which is the least number, that any living task whose chain
/// comes to it has by itself; what a task has by itself is the highest of its base priority and of the ceilings that it holds.
/// A DORMANT task has its base priority. A chain goes on from a task with the owner of the mutex with inheritance that it waits
/// for, and with nobody else. Tables have no more than 256 tasks, and no mutex 0.
pub fn the_current_priority_is_the_highest_that_is_lent()
    ensures least { (b : Base) (m : Mutexes) (t : ℕ) → length b.tasks ≤ 256 → mutex_at m 0 ≡ None → is_alive (task_at b t) ≡ true →
        IsLeast b m t (current_of b m t) }
    ensures own { (b : Base) (m : Mutexes) (u : ℕ) → IsOwn b m u (own b m u) }
    ensures dormant { (b : Base) (m : Mutexes) (t : ℕ) → is_dormant b t ≡ true → current_of b m t ≡ base_of b t }
    ensures heir { (b : Base) (m : Mutexes) (u heir : ℕ) → mutex_at m 0 ≡ None → (heir ≡ 0 → ⊥) → next_in_chain b m u ≡ heir → WaitsForHeir b m u heir }
    ensures next { (b : Base) (m : Mutexes) (u heir : ℕ) → WaitsForHeir b m u heir → next_in_chain b m u ≡ heir }
{}

/// Where nobody owns a mutex, the current priority of each task by definition is its base priority.
pub fn without_owners_the_base_priority_counts()
    ensures base { (b : Base) (m : Mutexes) (t : ℕ) → ((id : ℕ) → owner_of m id ≡ 0) → 1 ≤ t → current_of b m t ≡ base_of b t }
{}

/// Once changed priorities are taken over, the current priority of each task is that of its definition. Each row is as it was
/// but for that; the tasks whose priority changed stand last in the order of stamps, in rising ID, and the others as they
/// stood; nothing else has changed. So a task that was the first of its equals, and whose own priority doesn't change, stays
/// so; and where no priority changes, nothing does. There is no task 0.
pub fn taking_over_gives_each_task_its_priority()
    ensures current { (b : Base) (m : Mutexes) (t : ℕ) → 1 ≤ t → current (resettle b m) t ≡ current_of (resettle b m) m t }
    ensures rows { (b : Base) (m : Mutexes) (t : ℕ) → 1 ≤ t →
        task_at (resettle b m) t ≡ option_map {T = Task} (λ k. record k { current = current_of b m t }) (task_at b t) }
    ensures order { (b : Base) (m : Mutexes) → task_at b 0 ≡ None →
        (resettle b m).order ≡ filter (λ u. not (is_stale b m u)) b.order ++ filter (is_stale b m) (taken_from 1 (drop 1 b.tasks)) }
    ensures rest { (b : Base) (m : Mutexes) → resettle b m ≡ record b { tasks = (resettle b m).tasks; order = (resettle b m).order } }
    ensures place { (b : Base) (m : Mutexes) (t : ℕ) → KeepsPlace b t → current b t ≡ current_of b m t → KeepsPlace (resettle b m) t }
    ensures still { (b : Base) (m : Mutexes) → ((t : ℕ) → 1 ≤ t → current b t ≡ current_of b m t) → resettle b m ≡ b }
{}

/// Serving a mutex ends exactly one wait, that of the first in its queue, who becomes its owner; it comes only where nobody owns
/// the mutex, and where a task waits for such a one it comes. Of all mutexes the first by ID that can serve one does, and where
/// none does, none can.
pub fn a_free_mutex_goes_to_the_first_of_its_queue()
    ensures served { (b : Base) (m : Mutexes) (id : ℕ) (parts : MutexParts) → serve_mutex b m id ≡ Some parts → IsServed b m id parts }
    ensures owned { (b : Base) (m : Mutexes) (id : ℕ) → (owner_of m id ≡ 0 → ⊥) → serve_mutex b m id ≡ None }
    ensures free { (b : Base) (m : Mutexes) (id t : ℕ) (k : Mutex) (rest : List ℕ) → mutex_at m id ≡ Some k → k.owner ≡ 0 → mutex_waiters b k id ≡ t ∷ rest →
        serve_mutex b m id ≡ Some (record { base = release b t (plain (pos 0)); table = locked m id k t }) }
    ensures first { (b : Base) (m : Mutexes) (parts : MutexParts) → serve_mutexes b m ≡ Some parts → IsFirstServed b m parts }
    ensures none { (b : Base) (m : Mutexes) (id : ℕ) → serve_mutexes b m ≡ None → 1 ≤ id → serve_mutex b m id ≡ None }
{}

/// Nobody takes a mutex from its owner: a call leaves it with the task that owns it, unless that one unlocks it or it is deleted;
/// so does a serving; and what a task frees as it ends leaves every other task its own.
pub fn nobody_takes_a_mutex_from_its_owner()
    ensures call { (b : Base) (m : Mutexes) (who : Who) (call : MutexCall) (id : ℕ) → (owner_of m id ≡ 0 → ⊥) →
        (owner_of (mutex_call b m who call).table id ≡ owner_of m id) ⊎ GivesUp who call id (owner_of m id) }
    ensures serving { (b : Base) (m : Mutexes) (number id : ℕ) (parts : MutexParts) → serve_mutex b m number ≡ Some parts →
        (owner_of m id ≡ 0 → ⊥) → owner_of parts.table id ≡ owner_of m id }
    ensures freeing { (b : Base) (m : Mutexes) (t id : ℕ) (now : Mutexes) → free_last b m t ≡ Some now →
        (owner_of m id ≡ t → ⊥) → owner_of now id ≡ owner_of m id }
{}

/// Of the mutexes that a task holds the one that it locked last is freed, and nothing else changes; where none is freed, the
/// task holds none. Each mutex that is owned stands once among those that are locked.
pub fn what_was_locked_last_is_freed_first()
    ensures freed { (b : Base) (m : Mutexes) (t : ℕ) (now : Mutexes) → IsOnce m.locks → free_last b m t ≡ Some now → IsLastFreed m t now }
    ensures none { (b : Base) (m : Mutexes) (t : ℕ) → free_last b m t ≡ None → held m t ≡ [] }
{}

/// A priority that ceilings allow is above no ceiling of a mutex that the task holds or waits for, and one that they don't allow
/// is above such a ceiling; above means a smaller number. The mutex that a task waits for is the one for whose object it waits.
pub fn a_ceiling_is_what_no_priority_may_be_above()
    ensures allowed { (b : Base) (m : Mutexes) (t priority id ceiling : ℕ) → ceiling_allows b m t priority ≡ true →
        HoldsOrAwaits b m t id → ceiling_of m id ≡ Some ceiling → ceiling ≤ priority }
    ensures refused { (b : Base) (m : Mutexes) (t priority : ℕ) → ceiling_allows b m t priority ≡ false → IsAboveCeiling b m t priority }
    ensures awaits { (b : Base) (t id : ℕ) → waits_for b (mutex_object id) t ≡ true → 1 ≤ id → id ≤ 64 → awaited b t ≡ id }
    ensures waits { (b : Base) (t id : ℕ) → awaited b t ≡ id → 1 ≤ id → waits_for b (mutex_object id) t ≡ true }
{}

/// A call that waits for a mutex is its trial: what the mutex decides for its caller is what comes of it when the caller joins
/// the waiters and the mutex serves one, if it can. The caller is ready, and before the call the mutex could serve nobody. With
/// a time-out of 0 a call that isn't served changes nothing.
pub fn a_call_for_a_mutex_is_its_trial()
    ensures trial { (b : Base) (m : Mutexes) (t id : ℕ) (timeout : ℤ) (k : Mutex) → MayWait b t → mutex_at m id ≡ Some k → serve_mutex b m id ≡ None →
        waited_for_mutex b m t id timeout (Some k) ≡ mutex_trial b m t id timeout k }
    ensures over { (b : Base) (m : Mutexes) (t id : ℕ) (k : Mutex) → (k.owner ≡ 0 → ⊥) →
        waited_for_mutex b m t id (pos 0) (Some k) ≡ record { base = b; table = m; outcome = failed er.TmOut } }
{}

/// The table of mutexes stays in order from the start on, through calls, servings and freeings: the mutexes that are locked are
/// those that are owned, each once, owners are tasks, and there is no mutex 0. So no task ever holds more than 64.
pub fn the_table_of_mutexes_stays_in_order()
    ensures start { AreInOrder mutexes_start }
    ensures call { (b : Base) (m : Mutexes) (who : Who) (call : MutexCall) → AreInOrder m → IsCaller who → AreInOrder (mutex_call b m who call).table }
    ensures serving { (b : Base) (m : Mutexes) (id : ℕ) (parts : MutexParts) → AreInOrder m → length b.tasks ≤ 256 → task_at b 0 ≡ None →
        serve_mutex b m id ≡ Some parts → AreInOrder parts.table }
    ensures freeing { (b : Base) (m : Mutexes) (t : ℕ) (now : Mutexes) → AreInOrder m → free_last b m t ≡ Some now → AreInOrder now }
    ensures few { (m : Mutexes) (t : ℕ) → AreInOrder m → length (held m t) ≤ 64 }
{}

/// A call on mutexes that is refused changes nothing: where it answers a negative value, which is an error, the base and the
/// table of mutexes are as they were.
pub fn a_call_on_mutexes_that_is_refused_changes_nothing()
    ensures calls { (b : Base) (m : Mutexes) (who : Who) (call : MutexCall) (answer : Answer) → (mutex_call b m who call).outcome ≡ Returned answer →
        is_negative answer.value ≡ true → ((mutex_call b m who call).base ≡ b) × ((mutex_call b m who call).table ≡ m) }
{}

/// A call on tasks is the same beside mutexes as without them, unless it answers E_ILUSE and changes nothing. That comes only
/// where `tk_chg_pri` would set a base priority that a ceiling doesn't allow, and whatever a ceiling doesn't allow leaves the
/// base as it was.
pub fn calls_on_tasks_know_of_mutexes_by_ceilings_alone()
    ensures same { (b : Base) (m : Mutexes) (who : Who) (call : TaskCall) →
        (task_call_beside b m who call ≡ task_call b who call) ⊎ (task_call_beside b m who call ≡ record { base = b; outcome = failed er.IlUse }) }
    ensures allowed { (b : Base) (m : Mutexes) (who : Who) (task priority : ℤ) →
        ceiling_allows b m (named who task) (new_base b (named who task) priority) ≡ true →
        task_call_beside b m who (ChgPri task priority) ≡ task_call b who (ChgPri task priority) }
    ensures refused { (b : Base) (m : Mutexes) (who : Who) (task priority : ℤ) →
        ceiling_allows b m (named who task) (new_base b (named who task) priority) ≡ false →
        (task_call_beside b m who (ChgPri task priority)).base ≡ b }
{}

/// A task that makes a call on mutexes and stays ready keeps its place: it stays the first of its equals, also when changed
/// priorities are taken over, unless its own is one of them.
pub fn a_caller_keeps_its_place()
    ensures call { (b : Base) (m : Mutexes) (t : ℕ) (call : MutexCall) → KeepsPlace b t → is_ready b t ≡ true →
        is_ready (mutex_call b m (whos.Task t) call).base t ≡ true →
        KeepsPlace (mutex_call b m (whos.Task t) call).base t }
    ensures taken_over { (b : Base) (m : Mutexes) (t : ℕ) (call : MutexCall) → KeepsPlace b t → is_ready b t ≡ true →
        let left = mutex_call b m (whos.Task t) call in
        is_ready left.base t ≡ true → current left.base t ≡ current_of left.base left.table t →
        KeepsPlace (resettle left.base left.table) t }
{}
