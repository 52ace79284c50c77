//! The events of cyclic and alarm handlers, found by what they are.

ghost use Rattle.std.specs.Prelude.{◌≡◌, ◌<◌, ◌^◌, vec_capacity};
ghost use Rattle.std.specs.List.{All};
ghost use Rattle.context_model.specs.Clocks.Tables.{due_time, is_event, without_event};
ghost use Rattle.time_queue.specs.Handlers.{id_of};

use crate::Due;
use tk_types::{DueEvent, Event};

/// Whether two events are the start of one handler, or the end of one task's wait. Their IDs are bytes.
fn is_event(what: Event, other: Event) -> bool
    ensures same { result ≡ is_event what other }
    ensures byte { id_of other < 256 }
{
    match what {
        Event::Wait(task) => match other {
            Event::Wait(id) => id == task,
            Event::Cyclic(_) => false,
            Event::Alarm(_) => false,
        },
        Event::Cyclic(handler) => match other {
            Event::Cyclic(id) => id == handler,
            Event::Wait(_) => false,
            Event::Alarm(_) => false,
        },
        Event::Alarm(handler) => match other {
            Event::Alarm(id) => id == handler,
            Event::Wait(_) => false,
            Event::Cyclic(_) => false,
        },
    }
}

/// Takes out an event by what it is.
fn take_out_event(events: &mut Vec<DueEvent>, what: Event)
    ensures left { events.new.items ≡ without_event what events.old.items }
    ensures bytes { All (λ event. id_of event.what < 256) events.new.items }
    ensures room { vec_capacity events.new ≡ vec_capacity events.old }
{
    events.retain(|event| !is_event(what, event.what));
}

impl Due {
    /// Takes back an event by what it is, where it is set. The IDs of all events are bytes.
    pub fn drop_event(&mut self, what: Event)
        ensures left { self.new ≡ record self.old { events = without_event what self.old.events } }
        ensures bytes { All (λ event. id_of event.what < 256) self.new.events }
    {
        take_out_event(&mut self.events, what);
    }

    /// The time for which an event is set, where it is.
    pub fn time_of(&self, what: Event) -> Option<u64>
        ensures { result ≡ due_time what self.now.events }
    {
        let event = self.events.iter().find(|event| is_event(what, event.what))?;
        Some(event.time)
    }
}
