//! Cyclic and alarm handlers among what is set for a time.

ghost use Rattle.std.specs.Prelude.{◌≡◌, ◌<◌, ◌^◌, false, true};
ghost use Rattle.context_model.specs.Clocks.Tables.{due_time, set_for, unset};
ghost use Rattle.kernel_base.specs.Handlers.{has_event, is_handler};

use crate::base::Base;
use tk_types::Event;

impl Base {
    /// A handler is no longer set for a time.
    #[tactic(auto, using(crate::proofs::Unset::unset_after))]
    pub fn cancel_handler(&mut self, what: Event)
        ensures cancelled { self.new ≡ unset self.old what }
        ensures unset { is_handler what ≡ true → has_event what self.new.events ≡ false }
    {
        self.due.drop_event(what);
    }

    /// Sets a cyclic or an alarm handler, whose ID is from 1 to 64, for a time, in place of the one that it was set for.
    pub fn set_handler(&mut self, due: u64, what: Event)
        requires few { self.old.made < 2 ^ 63 }
        requires handler { is_handler what ≡ true }
        ensures { self.new ≡ set_for self.old due what }
    {
        self.cancel_handler(what);
        self.add_event(due, what);
    }

    /// The time for which a handler is set, where it is.
    pub fn handler_due(&self, what: Event) -> Option<u64>
        ensures { result ≡ due_time what self.now.events }
    {
        self.due.time_of(what)
    }
}
