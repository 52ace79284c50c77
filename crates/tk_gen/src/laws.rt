//! Laws of generated scripts and of summaries.

ghost use Rattle.std.specs.Prelude.{◌≡◌, ◌≤◌, ℕ, Bool, Some, count_by};
ghost use Rattle.tk_types.specs.declared.line.Line.{Line};
ghost use Rattle.tk_types.specs.declared.run.Mode.{Mode};
ghost use Rattle.tk_types.specs.declared.script.Script.{Script};
ghost use Rattle.dev_layer.specs.Tables.{AreDevices};
ghost use Rattle.kernel_model.specs.Bodies.Statements.{IsRunnable};
ghost use Rattle.device_model.specs.declared.messages.Ending.{Ending};
ghost use Rattle.machine_model.specs.Events.Arrivals.{arrived};
ghost use Rattle.machine_model.specs.Events.Follow.{Event};
ghost use Rattle.machine_model.specs.Runs.Generator.{generated, summary};
ghost use Rattle.machine_model.specs.Runs.Step.{worked};
ghost use Rattle.machine_model.specs.Runs.Trace.{Trace, start};
ghost use Rattle.machine_model.specs.States.State.{State};
ghost use Rattle.tk_gen.specs.Counts.{IsPlain};
ghost use Rattle.tk_gen.specs.Summaries.{SumsUp, summed_text};
ghost use Rattle.tk_gen.specs.declared.summary.Summary.{Summary};

/// Each generated script is one that the machine can run, and the numbers of its device are in range.
pub fn scripts_can_be_run()
    ensures runnable { (number : ℕ) → IsRunnable (generated number) }
    ensures devices { (number : ℕ) → AreDevices (generated number).devices }
{}

/// The line of a summary is that of the trace which it sums up.
pub fn lines_sum_traces_up()
    ensures { (summed : Summary) (number : ℕ) (trace : Trace) → SumsUp summed number trace → summed_text summed ≡ summary number trace }
{}

/// Two at most of the lines of a step are of a kind that a summary counts, and of those of an ending that arrives; none is of those of
/// the start.
pub fn counted_lines_are_few()
    ensures worked { (p : Line → Bool) → IsPlain p → (script : Script) (mode : Mode) (n : ℕ) (st : State) → count_by p (worked script mode n st).lines ≤ 2 }
    ensures arrived { (p : Line → Bool) → IsPlain p → (script : Script) (mode : Mode) (st : State) (e : Ending) (event : Event) → arrived script mode st e ≡ Some event → count_by p event.lines ≤ 2 }
    ensures start { (p : Line → Bool) → IsPlain p → (script : Script) → count_by p (start script).lines ≡ 0 }
{}
