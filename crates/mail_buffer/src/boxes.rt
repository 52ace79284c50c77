//! One mailbox: its messages in the order in which they go.

ghost use Rattle.std.specs.Prelude.{◌≡◌, ◌≤◌, OnErr, OnOk, [], drop, insert, length, slice_get};
ghost use Rattle.object_model.specs.Mails.Boxes.{by_priority, put_in};

use object_model::mails::Message;
use std::alloc::{AllocError, Global};
use std::collections::VecDeque;
use std::marker::Model;
use tk_types::Order;

/// The most messages that lie in a mailbox: as many as the simulated system memory could ever pay for.
const MOST_MESSAGES: usize = 65_536;

/// A mailbox: how its waiters queue, whether its messages go by their priority, and those that lie in it, the one that
/// goes first in front.
#[derive(Drop)]
pub(crate) struct Mailbox {
    order: Order,
    by_priority: bool,
    messages: VecDeque<Message>,
}

impl Model for Mailbox {
    ghost use Rattle.std.specs.Prelude.{◌≤◌, length};
    ghost use Rattle.object_model.specs.Mails.Tables.{Mailbox as MailboxView};

    ghost Value = { MailboxView };

    ghost view = { λ k. record { order = k.order; by_priority = k.by_priority; messages = k.messages.items } };

    ghost invariant = { λ k. length k.messages.items ≤ 65536 };
}

/// The place in front of the first message of a lower priority, or behind all where there is none.
fn place_of(messages: &VecDeque<Message>, message: Message) -> usize
    ensures within { result ≤ length messages.now.items }
    ensures place { insert messages.now.items result message ≡ by_priority message messages.now.items }
{
    'messages: for place in 0..messages.len() {
        if message.priority < messages[place].priority {
            return place;
        }
    }
    messages.len()
}

impl Mailbox {
    /// A mailbox in which no message lies.
    pub(crate) fn new(alloc: Global, order: Order, by_priority: bool) -> Mailbox
        ensures { result ≡ record { order = order; by_priority = by_priority; messages = [] } }
    {
        Mailbox {
            order,
            by_priority,
            messages: VecDeque::new(alloc),
        }
    }

    /// How its waiters queue.
    pub(crate) fn order(&self) -> Order
        ensures { result ≡ self.now.order }
    {
        self.order
    }

    /// How many messages lie in it.
    pub(crate) fn count(&self) -> u32
        ensures count { result ≡ length self.now.messages }
        ensures few { result ≤ 65536 }
    {
        self.messages.len() as u32
    }

    /// A message goes behind all others, or where the box goes by priority in front of the first one of a lower priority.
    /// An error says that there was no memory, or that 65,536 messages lie there, and that nothing changed.
    pub(crate) fn put_in(&mut self, message: Message) -> Result<(), AllocError>
        ensures ok { OnOk result (self.new ≡ put_in self.old message) }
        ensures err { OnErr result (self.new ≡ self.old) }
    {
        if self.messages.len() >= MOST_MESSAGES {
            return Err(AllocError);
        }
        if self.by_priority {
            let place = place_of(&self.messages, message);
            self.messages.insert(place, message)?;
        } else {
            self.messages.push_back(message)?;
        }
        Ok(())
    }

    /// The first message leaves, if there is one.
    pub(crate) fn take_first(&mut self) -> Option<Message>
        ensures first { result ≡ slice_get self.old.messages 0 }
        ensures left { self.new ≡ record self.old { messages = drop 1 self.old.messages } }
    {
        self.messages.pop_front()
    }
}
