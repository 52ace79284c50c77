//! A law of the whole machine on services, the contract of a function that does nothing.

ghost use Rattle.std.specs.Prelude.{ℕ, ◌≤◌, List};
ghost use Rattle.tk_types.specs.declared.run.Mode.{Mode};
ghost use Rattle.tk_types.specs.declared.script.Script.{Script};
ghost use Rattle.kernel_model.specs.Bodies.Statements.{IsRunnable};
ghost use Rattle.context_model.specs.Contexts.Tables.{depth_in};
ghost use Rattle.machine_model.specs.Runs.Reached.{Move, state_after};

/// In every state that a machine comes to, by whatever steps and endings, each task is in eight services at most.
pub fn services_nest_eight_deep_in_every_state()
    ensures { (script : Script) (mode : Mode) (budget : ℕ) (moves : List Move) → IsRunnable script →
        (t : ℕ) → depth_in (state_after script mode budget moves).objects.contexts t ≤ 8 }
{}
