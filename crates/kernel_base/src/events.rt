//! What is set for a time.

ghost use Rattle.std.specs.Prelude.{◌≡◌, ◌<◌, ◌^◌, ◌==◌, not, length, false, true};
ghost use Rattle.kernel_model.specs.Tasks.Base.{add_event, cancel_event, take_due};
ghost use Rattle.kernel_model.specs.Words.Events.{due_event, has_key};
ghost use Rattle.kernel_base.specs.Handlers.{has_event, is_handler};

use crate::base::Base;
use tk_types::Event;

impl Base {
    /// Sets a cyclic or an alarm handler, whose ID is from 1 to 64 and which isn't set, for a time. Answers the event's
    /// key.
    pub fn add_event(&mut self, due: u64, what: Event) -> u64
        requires few { self.old.made < 2 ^ 63 }
        requires handler { is_handler what ≡ true }
        requires unset { has_event what self.old.events ≡ false }
        ensures key { result ≡ self.old.made }
        ensures added { self.new ≡ add_event self.old due what }
    {
        self.due.add(due, what)
    }

    /// Takes back the event with a key. False, with nothing changed, comes exactly where there is none.
    pub fn cancel_event(&mut self, key: u64) -> bool
        ensures inside { result ≡ has_key key self.old.events }
        ensures cancelled { self.new ≡ cancel_event self.old key }
    {
        self.due.cancel(key)
    }

    /// Takes the first event that is due by now, or answers `None`.
    pub fn pop_due(&mut self) -> Option<Event>
        ensures event { result ≡ due_event self.old.time self.old.events }
        ensures taken { self.new ≡ take_due self.old }
    {
        self.due.pop_due(self.time)
    }

    /// Whether anything is set for a time.
    pub fn has_event(&self) -> bool
        ensures { result ≡ not (length self.now.events == 0) }
    {
        !self.due.is_empty()
    }

    /// How many events are set.
    pub fn event_count(&self) -> usize
        ensures { result ≡ length self.now.events }
    {
        self.due.len()
    }
}
