//! Laws of requests in every run, each the contract of a function that does nothing.

ghost use Rattle.std.specs.Prelude.{◌≡◌, ◌≤◌, ◌++◌, ℕ, true, false, [], List, Some};
ghost use Rattle.tk_types.specs.declared.line.Entry.{Entry};
ghost use Rattle.tk_types.specs.declared.line.How.TheVariants.{Cut, Done};
ghost use Rattle.tk_types.specs.declared.run.Mode.{Mode};
ghost use Rattle.tk_types.specs.declared.script.Script.{Script};
ghost use Rattle.kernel_model.specs.Bodies.Statements.{IsRunnable};
ghost use Rattle.device_model.specs.declared.messages.Ending.{Ending};
ghost use Rattle.device_model.specs.Devices.MoveProofs.{is_abort};
ghost use Rattle.device_model.specs.Devices.Tables.{Row, devices_start, has_ended, row_at};
ghost use Rattle.device_laws.specs.Moves.{Leads};
ghost use Rattle.device_laws.specs.Requests.{AreApart, AreTied, IsGone, StaysSo, is_asked};
ghost use Rattle.machine_model.specs.States.State.{State};
ghost use Rattle.machine_model.specs.Events.Arrivals.{arrived};
ghost use Rattle.machine_model.specs.Events.Follow.{Event};
ghost use Rattle.machine_model.specs.Runs.Reached.{Move};
ghost use Rattle.machine_model.specs.Runs.Trace.{Trace, after, start, trace};
ghost use Rattle.journal_laws.specs.Requests.{EndedAsAsked, GoesThrough, devices_after};
ghost use Rattle.journal_laws.specs.Turns.{first_place};

/// Devices change by their moves alone: those of each state that a machine comes to, by any steps and any endings, are what a list
/// of moves on devices makes of those at the start, and so from each such state to a later one.
pub fn devices_change_by_their_moves_in_every_run()
    ensures start { (script : Script) (mode : Mode) (budget : ℕ) (moves : List Move) → IsRunnable script →
        Leads (devices_start script) (devices_after script mode budget moves) }
    ensures later { (script : Script) (mode : Mode) (budget : ℕ) (before more : List Move) → IsRunnable script →
        Leads (devices_after script mode budget before) (devices_after script mode budget (more ++ before)) }
{}

/// A request ends once at most, in every run: in each state that a machine comes to no two requests have one serial, and what a
/// driver has is with it by the table of requests; one that has ended stays just as it ended in every later state, while it is
/// there; and one that was let go never comes back.
pub fn a_request_ends_once_in_every_run()
    ensures apart { (script : Script) (mode : Mode) (budget : ℕ) (moves : List Move) → IsRunnable script → AreApart (devices_after script mode budget moves) }
    ensures tied { (script : Script) (mode : Mode) (budget : ℕ) (moves : List Move) → IsRunnable script → AreTied (devices_after script mode budget moves) }
    ensures ended { (script : Script) (mode : Mode) (budget : ℕ) (before more : List Move) (id : ℕ) (row : Row) → IsRunnable script →
        row_at (devices_after script mode budget before) id ≡ Some row → has_ended row.life ≡ true → StaysSo row (devices_after script mode budget (more ++ before)) }
    ensures gone { (script : Script) (mode : Mode) (budget : ℕ) (before more : List Move) (serial : ℕ) → IsRunnable script →
        IsGone serial (devices_after script mode budget before) → IsGone serial (devices_after script mode budget (more ++ before)) }
{}

/// A request ends aborted only where that was asked, in every run: an ending that arrives cuts its request off only where the driver
/// was asked, and any other says no abort; and each request that has ended aborted in a state that a machine comes to was asked
/// to before, while its driver had it.
pub fn a_request_is_aborted_only_where_that_was_asked_in_every_run()
    ensures cut { (script : Script) (mode : Mode) (st : State) (ending : Ending) (event : Event) (count : ℕ) → arrived script mode st ending ≡ Some event →
        ending.how ≡ Cut count → is_asked st.objects.devices ending.device ≡ true }
    ensures done { (script : Script) (mode : Mode) (st : State) (ending : Ending) (event : Event) → arrived script mode st ending ≡ Some event →
        ending.how ≡ Done → is_abort ending.error ≡ false }
    ensures before { (script : Script) (mode : Mode) (budget : ℕ) (moves : List Move) → IsRunnable script → EndedAsAsked script (devices_after script mode budget moves) }
{}

/// A run goes through states that the machine comes to: each of its turns starts from one, and where the run goes on does so at one
/// that the machine comes to by some moves more. So what laws say of such states, and of one and a later one, holds in
/// every run, whatever its journal.
pub fn a_run_goes_through_states_that_the_machine_comes_to()
    ensures { (script : Script) (mode : Mode) (budget : ℕ) (entries : List Entry) → 1 ≤ budget →
        (rest : Trace) × GoesThrough script mode budget [] (first_place script entries) rest × (trace script mode budget entries ≡ after (start script).lines rest) }
{}
