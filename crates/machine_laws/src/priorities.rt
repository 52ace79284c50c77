//! The law that few calls change priorities, the contract of a function that does nothing.

ghost use Rattle.std.specs.Prelude.{◌≡◌, ℕ, ℤ};
ghost use Rattle.tk_types.specs.declared.calls.Call.{Call};
ghost use Rattle.tk_types.specs.declared.calls.Call.TheVariants as calls;
ghost use Rattle.tk_types.specs.declared.calls.MutexCall.TheVariants as mutexes;
ghost use Rattle.tk_types.specs.declared.calls.TaskCall.TheVariants as tasks;
ghost use Rattle.tk_types.specs.declared.run.Mode.{Mode};
ghost use Rattle.object_model.specs.Mutexes.Tables.{owner_of};
ghost use Rattle.machine_model.specs.Events.Calls.{called};
ghost use Rattle.machine_model.specs.Events.Rest.{AreUpToDate};
ghost use Rattle.machine_model.specs.States.State.{State};

/// While nobody owns a mutex two calls alone change priorities: `tk_chg_pri`, and `tk_loc_mtx`, by which the caller comes under a
/// ceiling. Where each task's current priority is that of its definition, it still is after every other call of any family,
/// whoever makes it, so that settling has none to take over (`kept`); and nobody owns a mutex then (`still_unowned`).
pub fn two_calls_change_priorities()
    ensures kept { (mode : Mode) (n : ℕ) (st : State) (caller : ℕ) (call : Call) →
        ((task priority : ℤ) → call ≡ calls.Task (tasks.ChgPri task priority) → ⊥) → ((id timeout : ℤ) → call ≡ calls.Mutex (mutexes.LocMtx id timeout) → ⊥) →
        ((id : ℕ) → owner_of st.objects.mutexes id ≡ 0) → AreUpToDate st.base st.objects.mutexes →
        AreUpToDate (called mode n st caller call).state.base (called mode n st caller call).state.objects.mutexes }
    ensures still_unowned { (mode : Mode) (n : ℕ) (st : State) (caller : ℕ) (call : Call) →
        ((task priority : ℤ) → call ≡ calls.Task (tasks.ChgPri task priority) → ⊥) → ((id timeout : ℤ) → call ≡ calls.Mutex (mutexes.LocMtx id timeout) → ⊥) →
        ((id : ℕ) → owner_of st.objects.mutexes id ≡ 0) → AreUpToDate st.base st.objects.mutexes →
        (id : ℕ) → owner_of (called mode n st caller call).state.objects.mutexes id ≡ 0 }
{}
