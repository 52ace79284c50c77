//! Laws of the definitions, each the contract of a function that does nothing.

ghost use Rattle.std.specs.Prelude.{◌≡◌, ℕ, true, false, ℤ, List, Some};
ghost use Rattle.std.specs.List.{list_any};
ghost use Rattle.std.specs.Option.{is_some};
ghost use Rattle.std.specs.Int.{is_negative};
ghost use Rattle.tk_types.specs.declared.answer.Answer.{Answer};
ghost use Rattle.tk_types.specs.declared.answer.Outcome.TheVariants.{Returned};
ghost use Rattle.tk_types.specs.declared.answer.Who.{Who};
ghost use Rattle.tk_types.specs.declared.calls.DeviceCall.{DeviceCall};
ghost use Rattle.tk_types.specs.declared.calls.DeviceCall.TheVariants as call;
ghost use Rattle.tk_types.specs.declared.line.How.{How};
ghost use Rattle.tk_types.specs.declared.line.How.TheVariants.{Cut, Done};
ghost use Rattle.tk_types.specs.declared.script.Script.{Script};
ghost use Rattle.kernel_model.specs.Tasks.Base.{Base};
ghost use Rattle.kernel_model.specs.Words.Checks.{natural};
ghost use Rattle.device_model.specs.declared.messages.Ending.{Ending};
ghost use Rattle.device_model.specs.Devices.Tables.{Devices, Row, devices_start, has_ended, row_at};
ghost use Rattle.device_model.specs.Devices.Endings.{DevParts, arrive, expected};
ghost use Rattle.device_model.specs.Devices.Handing.{emptied, hand_over, hand_first};
ghost use Rattle.device_model.specs.Devices.Servings.{serve_acceptances, serve_endings, serve_closes, serve_suspension};
ghost use Rattle.device_model.specs.Devices.Calls.{device_call};
ghost use Rattle.device_model.specs.Devices.MoveProofs.{is_abort};
ghost use Rattle.device_laws.specs.Asked.{AllWereAsked};
ghost use Rattle.device_laws.specs.Claims.{HandsOut, Serves};
ghost use Rattle.device_laws.specs.Moves.{Leads, LeadsIfAny, Move, all_moved, asks, lets_go};
ghost use Rattle.device_laws.specs.Requests.{AreApart, IsGone, IsThere, AreTied, NoneAborted, StaysSo, is_asked};
ghost use Rattle.device_laws.specs.Words.{NobodyIsServed, WasExpected, but_for, may_answer_for_buffer};

/// All that is done to devices is a list of ten moves, each of which changes nothing where it can't be done: by every call,
/// each kind of serving, when requests go to drivers, when an ending arrives, and when messages to drivers are taken.
pub fn all_is_made_of_moves()
    ensures calls { (p : DevParts) (who : Who) (c : DeviceCall) → Leads p.table (device_call p who c).parts.table }
    ensures acceptances { (p : DevParts) → LeadsIfAny p.table (serve_acceptances p) }
    ensures endings { (p : DevParts) → LeadsIfAny p.table (serve_endings p) }
    ensures closes { (p : DevParts) → LeadsIfAny p.table (serve_closes p) }
    ensures suspension { (p : DevParts) → LeadsIfAny p.table (serve_suspension p) }
    ensures handing { (b : Base) (dv : Devices) → Leads dv (hand_over b dv) }
    ensures first { (dv : Devices) → Leads dv (hand_first dv) }
    ensures arrivals { (p : DevParts) (ending : Ending) → LeadsIfAny p.table (arrive p ending) }
    ensures taking { (dv : Devices) → Leads dv (emptied dv) }
{}

/// A call that answers an error has changed nothing. A call that stays for its own request may answer the error with which a
/// request for the event buffer ended; that request was accepted, and so the call wasn't refused.
pub fn a_refused_device_call_changes_nothing()
    ensures { (p : DevParts) (who : Who) (c : DeviceCall) (answer : Answer) → may_answer_for_buffer c ≡ false →
        (device_call p who c).outcome ≡ Returned answer → is_negative answer.value ≡ true → (device_call p who c).parts ≡ p }
{}

/// A request ends once at most: no two requests have one serial, from the start and after every list of moves; one that has
/// ended stays just as it ended, while it is there; and one that was let go never comes back.
pub fn a_request_ends_once()
    ensures start { (script : Script) (moves : List Move) → AreApart (all_moved (devices_start script) moves) }
    ensures apart { (dv : Devices) (moves : List Move) → AreApart dv → AreApart (all_moved dv moves) }
    ensures ended { (dv : Devices) (moves : List Move) (id : ℕ) (row : Row) → AreApart dv → row_at dv id ≡ Some row →
        has_ended row.life ≡ true → StaysSo row (all_moved dv moves) }
    ensures gone { (dv : Devices) (moves : List Move) (serial : ℕ) → IsGone serial dv → IsGone serial (all_moved dv moves) }
{}

/// A request is there, with its ID, until it is let go: so its ID is free only after its ending was claimed, or it was
/// dropped.
pub fn an_id_is_taken_until_its_request_is_let_go()
    ensures { (dv : Devices) (moves : List Move) (id serial : ℕ) → list_any (lets_go id) moves ≡ false →
        IsThere id serial dv → IsThere id serial (all_moved dv moves) }
{}

/// A request ends aborted only where that was asked: an ending that cuts it off is fit only where its driver was asked, any
/// other says no abort, and where no driver is asked none ends aborted. Each that has ended aborted was asked to before, while its
/// driver had it.
pub fn a_request_is_aborted_only_where_that_was_asked()
    ensures cut { (dv : Devices) (d count : ℕ) (ending : Ending) → expected dv d (Cut count) ≡ Some ending → is_asked dv d ≡ true }
    ensures done { (dv : Devices) (d : ℕ) (ending : Ending) → expected dv d Done ≡ Some ending → is_abort ending.error ≡ false }
    ensures none { (dv : Devices) (moves : List Move) → list_any asks moves ≡ false → NoneAborted dv → NoneAborted (all_moved dv moves) }
    ensures before { (dv : Devices) (moves : List Move) → AreTied dv → NoneAborted dv → AllWereAsked dv moves }
{}

/// What is handed out is the ending of a request of the descriptor that was asked for, and it is let go with that: by
/// `tk_wai_dev` of the very request that it names, or of all that have ended the earliest, and by a serving the same of what
/// its task waits for.
pub fn an_ending_is_handed_out_to_whom_it_belongs()
    ensures call { (p : DevParts) (who : Who) (descriptor named timeout : ℤ) (answer : Answer) →
        (device_call p who (call.WaiDev descriptor named timeout)).outcome ≡ Returned answer → is_negative answer.value ≡ false →
        HandsOut p (natural descriptor) (natural named) answer (device_call p who (call.WaiDev descriptor named timeout)).parts }
    ensures serving { (p after : DevParts) → serve_endings p ≡ Some after → (dd : ℕ) × Serves p dd after }
{}

/// Requests that go to drivers leave nobody to serve: where nobody could be served before, nobody can be after it. So it is
/// enough that they go once all is settled.
pub fn handing_over_leaves_nobody_to_serve()
    ensures free { (p : DevParts) (b : Base) → NobodyIsServed p → NobodyIsServed (record p { table = hand_over b p.table }) }
    ensures sync { (p : DevParts) → NobodyIsServed p → NobodyIsServed (record p { table = hand_first p.table }) }
{}

/// An ending that arrives is the one that is expected of its kind, but for the number of messages that were taken and for how much
/// room there is behind its bytes; and what is expected arrives, whatever these two are, where drivers and table agree. They do so
/// from the start and after every list of moves: what was given to a driver is with it by the table of requests.
pub fn an_ending_arrives_where_it_is_expected()
    ensures arrived { (p after : DevParts) (ending : Ending) → arrive p ending ≡ Some after →
        WasExpected ending (expected p.table ending.device ending.how) }
    ensures arrives { (p : DevParts) (d : ℕ) (how : How) (ending : Ending) (taken room : ℕ) → AreTied p.table →
        expected p.table d how ≡ Some ending → is_some (arrive p (but_for ending taken room)) ≡ true }
    ensures tied { (dv : Devices) (moves : List Move) → AreTied dv → AreTied (all_moved dv moves) }
    ensures start { (script : Script) (moves : List Move) → AreTied (all_moved (devices_start script) moves) }
{}
