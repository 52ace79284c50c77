//! The law that goes from the record of a fleet to the world, the contract of a function that does nothing.

ghost use Rattle.std.specs.Prelude.{◌≡◌, ◌≤◌, ℕ, true, List};
ghost use Rattle.tk_types.specs.declared.line.Entry.{Entry};
ghost use Rattle.tk_types.specs.declared.run.Mode.{Mode};
ghost use Rattle.tk_types.specs.declared.script.Script.{Script};
ghost use Rattle.machine_model.specs.Runs.Trace.{trace};
ghost use Rattle.fleet_model.specs.Records.{Joined};
ghost use Rattle.journal_laws.specs.Fed.{is_whole};
ghost use Rattle.fleet_laws.specs.Embeds.{IsOfWorld, IsRecord};

/// What the record of a fleet tells of a run is a run of the world, in whatever order the threads of the drivers did their work.
/// Let a run of the kernel have ended by itself, and let there be for each device what was handed, taken, sent and received there, as
/// a close promises it of each driver alone (`joined`) and as it fits the run (`told`). Then some list of steps of the world makes all
/// of that: the world is over by the same end after as many steps (`over`), the lines of the trace are written (`written`), what
/// passed in the run passes, in its order (`passed`), and each driver takes and sends what its record says; what was handed beyond
/// that still waits on its road, and what was sent and not taken in stands in its outbox (`driven`).
pub fn embed()
    ensures { (script : Script) (mode : Mode) (budget : ℕ) (entries : List Entry) (channels : List Joined) → 1 ≤ budget →
        is_whole (trace script mode budget entries).last ≡ true → IsRecord script mode budget entries channels →
        IsOfWorld script mode budget entries channels }
{}
