//! The law of what is set for a time in every state of the whole machine, the contract of a function that does nothing.

ghost use Rattle.std.specs.Prelude.{ℕ, List};
ghost use Rattle.tk_types.specs.declared.run.Mode.{Mode};
ghost use Rattle.tk_types.specs.declared.script.Script.{Script};
ghost use Rattle.context_model.specs.Clocks.Phases.{AreInPhase};
ghost use Rattle.kernel_model.specs.Bodies.Statements.{IsRunnable};
ghost use Rattle.kernel_model.specs.LawWords.TimeOrder.{AreLater};
ghost use Rattle.machine_model.specs.Runs.Reached.{Move, state_after};

/// In every state that a machine comes to, what is set falls due later than the operating time, and each cyclic handler that keeps
/// its phase is set, if it is, for its first time or for one that lies a whole number of periods behind that; where there is no
/// handler none is set.
pub fn cyclic_handlers_keep_their_phase_in_every_state()
    ensures later { (script : Script) (mode : Mode) (budget : ℕ) (moves : List Move) → IsRunnable script →
        AreLater (state_after script mode budget moves).base.time (state_after script mode budget moves).base.events }
    ensures phase { (script : Script) (mode : Mode) (budget : ℕ) (moves : List Move) → IsRunnable script →
        AreInPhase (state_after script mode budget moves).objects.clocks (state_after script mode budget moves).base.events }
{}
