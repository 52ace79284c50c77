//! The law of the queues of the whole machine, the contract of a function that does nothing.

ghost use Rattle.std.specs.Prelude.{ℕ, List};
ghost use Rattle.tk_types.specs.declared.run.Mode.{Mode};
ghost use Rattle.tk_types.specs.declared.script.Script.{Script};
ghost use Rattle.kernel_model.specs.Bodies.Statements.{IsRunnable};
ghost use Rattle.machine_model.specs.Runs.Reached.{Move, state_after};
ghost use Rattle.machine_model.specs.States.Waits.{IsOrderly};

/// In every state that a machine comes to, each task that waits stands in the queue of an object that there is, in the order that
/// this object says: those that sleep, those in a delay, those that receive from a message buffer and those that wait for a device
/// by the beginning of their waits, and all others as the attributes of their object say.
pub fn each_task_that_waits_stands_in_its_queue()
    ensures reached { (script : Script) (mode : Mode) (budget : ℕ) (moves : List Move) → IsRunnable script →
        IsOrderly (state_after script mode budget moves).base (state_after script mode budget moves).objects }
{}
