//! Laws of the order of events, each the contract of a call that does nothing.

ghost use Rattle.std.specs.Prelude.{◌≡◌, ◌∷◌, ◌++◌, List, nat_le, nat_lt, filter};
ghost use Rattle.tk_types.specs.declared.task.DueEvent.{DueEvent};
ghost use Rattle.kernel_model.specs.Words.Events.{insert_event};
ghost use Rattle.time_queue.specs.Queue.{IsInOrder};

/// Events in order stay in order when one more is set.
#[tactic(auto, using(crate::proofs::Kept::in_order_inserted))]
pub fn setting_keeps_the_order()
    ensures { (event : DueEvent) (events : List DueEvent) → IsInOrder events → IsInOrder (insert_event event events) }
{}

/// An event goes behind all that fall due by its time, and before all that fall due later.
#[tactic(auto, using(crate::proofs::Kept::behind_equals))]
pub fn an_event_goes_behind_its_equals()
    ensures { (event : DueEvent) (events : List DueEvent) → IsInOrder events → insert_event event events ≡ filter (λ other. nat_le other.time event.time) events ++ event ∷ filter (λ other. nat_lt event.time other.time) events }
{}
