//! The events that are set, in one list.

ghost use Rattle.std.specs.Prelude.{◌≡◌, ◌<◌, ◌≤◌, ◌^◌, ◌+◌, ◌==◌, [], IfOk, length, nat_lt, position, vec_capacity};
ghost use Rattle.std.specs.List.{position_or_len};
ghost use Rattle.kernel_model.specs.Words.Events.{due_event, has_key, insert_event, is_wait_of, left_after, limit_of, without_key, without_wait};

use std::alloc::{AllocError, Global};
use std::marker::Model;
use tk_types::{DueEvent, Event};

/// The time events that are set, how many were made so far, and how many may be set at once.
#[derive(Drop)]
pub struct Due {
    pub(crate) events: Vec<DueEvent>,
    made: u64,
    most: u32,
}

impl Model for Due {
    ghost use Rattle.std.specs.Prelude.{vec_capacity};
    ghost use Rattle.time_queue.specs.Queue.{Queue, IsKept};

    ghost Value = { Queue };

    ghost view = { λ q. record { events = q.events.items; made = q.made; most = q.most } };

    ghost invariant = { λ q. IsKept q.events.items q.made q.most (vec_capacity q.events) };
}

/// Whether an event is the end of that task's wait.
fn is_wait_of(task: u8, what: Event) -> bool
    ensures { result ≡ is_wait_of task what }
{
    match what {
        Event::Wait(other) => other == task,
        Event::Cyclic(_) => false,
        Event::Alarm(_) => false,
    }
}

/// The place of the first event that falls due after a time.
fn first_after(events: &[DueEvent], due: u64) -> Option<usize>
    ensures { result ≡ position (λ event. nat_lt due event.time) events.now }
{
    events.iter().position(|event| due < event.time)
}

/// The place behind all events that fall due by a time.
#[tactic(auto, using(crate::proofs::Kept::placing))]
fn place_for(events: &[DueEvent], due: u64) -> usize
    ensures place { result ≡ position_or_len (λ event. nat_lt due event.time) events.now }
    ensures within { result ≤ length events.now }
{
    match first_after(events, due) {
        Some(place) => place,
        None => events.len(),
    }
}

/// Puts an event behind all that fall due by its time.
fn set_event(events: &mut Vec<DueEvent>, event: DueEvent)
    requires { length events.old.items < vec_capacity events.old }
    ensures set { events.new.items ≡ insert_event event events.old.items }
    ensures room { vec_capacity events.old ≤ vec_capacity events.new }
{
    let place = place_for(events, event.time);
    match events.insert(place, event) {
        Ok(()) => {}
        Err(_) => prove!(false),
    }
}

/// Whether an event has that key.
fn has_key(events: &[DueEvent], key: u64) -> bool
    ensures { result ≡ has_key key events.now }
{
    events.iter().any(|event| event.key == key)
}

/// Takes out the event with that key.
fn take_out_key(events: &mut Vec<DueEvent>, key: u64)
    ensures left { events.new.items ≡ without_key key events.old.items }
    ensures room { vec_capacity events.new ≡ vec_capacity events.old }
{
    events.retain(|event| event.key != key);
}

/// Takes out the end of a task's wait.
fn take_out_wait(events: &mut Vec<DueEvent>, task: u8)
    ensures left { events.new.items ≡ without_wait task events.old.items }
    ensures room { vec_capacity events.new ≡ vec_capacity events.old }
{
    events.retain(|event| !is_wait_of(task, event.what));
}

impl Due {
    /// No event, and memory for as many as `most` at once.
    pub fn reserve(alloc: Global, most: u32) -> Result<Due, AllocError>
        ensures { IfOk result (λ due. due ≡ record { events = []; made = 0; most = most }) }
    {
        Ok(Due {
            events: Vec::with_capacity(alloc, most as usize)?,
            made: 0,
            most,
        })
    }

    /// Sets an event for a time, behind all that fall due by then, and answers its key, which no other event has.
    /// Fewer than `most` events are set, and fewer than 2^63 were made.
    pub fn add(&mut self, due: u64, what: Event) -> u64
        requires room { length self.old.events < self.old.most }
        requires keys { self.old.made < 2 ^ 63 }
        ensures key { result ≡ self.old.made }
        ensures set { self.new ≡ record self.old { events = insert_event (record { time = due; key = self.old.made; what = what }) self.old.events; made = self.old.made + 1 } }
    {
        let key = self.made;
        let event = DueEvent {
            time: due,
            key,
            what,
        };
        set_event(&mut self.events, event);
        self.made += 1;
        key
    }

    /// Takes back the event with that key, and answers whether it was set.
    pub fn cancel(&mut self, key: u64) -> bool
        ensures found { result ≡ has_key key self.old.events }
        ensures left { self.new ≡ record self.old { events = without_key key self.old.events } }
    {
        let found = has_key(&self.events, key);
        take_out_key(&mut self.events, key);
        found
    }

    /// Takes the first event, where it is due by a time.
    pub fn pop_due(&mut self, now: u64) -> Option<Event>
        ensures first { result ≡ due_event now self.old.events }
        ensures left { self.new ≡ record self.old { events = left_after now self.old.events } }
    {
        let first = *self.events.first()?;
        if first.time > now {
            return None;
        }
        self.events.remove(0);
        Some(first.what)
    }

    /// Whether no event is set.
    pub fn is_empty(&self) -> bool
        ensures { result ≡ (length self.now.events == 0) }
    {
        self.events.is_empty()
    }

    /// How many events are set.
    pub fn len(&self) -> usize
        ensures { result ≡ length self.now.events }
    {
        self.events.len()
    }

    /// Takes back the end of a task's wait.
    pub fn drop_wait(&mut self, task: u8)
        ensures { self.new ≡ record self.old { events = without_wait task self.old.events } }
    {
        take_out_wait(&mut self.events, task);
    }

    /// The time at which a task's wait ends, where it has a limit.
    pub fn limit_of(&self, task: u8) -> Option<u64>
        ensures { result ≡ limit_of task self.now.events }
    {
        let end = self
            .events
            .iter()
            .find(|event| is_wait_of(task, event.what))?;
        Some(end.time)
    }
}
