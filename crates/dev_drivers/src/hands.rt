//! What the kernel does with the rings of a device.

ghost use Rattle.std.specs.Prelude.{◌≡◌, ◌<◌, ◌+◌, ◌⊎◌, true, false, [], vec_len, length, nat_le, IfSome, IfNone};
ghost use Rattle.std.specs.List.{list_any};
ghost use Rattle.rtrb.specs.Ring.{known_items};
ghost use Rattle.fleet_model.specs.Channels.{accepts, gone, is_serve, marked, with_ending};
ghost use Rattle.dev_drivers.specs.Links.{Flushed, HandedTo, IsFlushed, SameLink, channel_of};
ghost use Rattle.dev_drivers.specs.Wholes.{HasWhole};

use crate::link::Link;
use device_model::messages::{Ending, Message};

/// Whether a message brings a request.
fn is_serve(m: &Message) -> bool
    ensures { result ≡ is_serve m.now }
{
    match m {
        Message::Serve { .. } => true,
        Message::Abort { .. } => false,
        Message::Stop { .. } => false,
    }
}

impl Link {
    /// Puts the first of the messages that wait into the inbox, where it has room, and wakes the driver. Answers whether one went.
    fn flush_one(&mut self) -> bool
        ensures flushed { Flushed self.old self.new }
        ensures stuck { result ≡ false → IsFlushed self.new }
        ensures fewer { result ≡ true → vec_len self.new.waiting < vec_len self.old.waiting }
    {
        if self.waiting.is_empty() || self.to.is_full() {
            return false;
        }
        let m = self.waiting.remove(0);
        self.to.push_reserved(m);
        self.gone = self.gone.saturating_add(1);
        self.driver.unpark();
        true
    }

    /// Puts the messages that wait into the inbox, as far as it has room.
    #[tactic(auto, using(crate::proofs::Links::flushed_none, crate::proofs::Links::flushed_on))]
    pub(crate) fn flush(&mut self)
        ensures flushed { Flushed self.old self.new }
        ensures stuck { IsFlushed self.new }
    {
        'goes: while self.flush_one() {}
    }

    /// Takes a message for the driver, and puts those that wait into the inbox, as far as it has room. Fewer than four wait.
    pub(crate) fn hand(&mut self, m: Message)
        requires few { vec_len self.old.waiting < 4 }
        requires whole { HasWhole m }
        ensures handed { HandedTo self.old self.new m }
        ensures stuck { IsFlushed self.new }
    {
        self.waiting.push_reserved(m);
        self.flush();
    }

    /// Takes an ending out of the outbox, if the kernel finds one, and wakes the driver.
    pub(crate) fn pop(&mut self) -> Option<Ending>
        ensures same { SameLink self.old self.new }
        ensures device { IfSome result (λ ending. ending.device ≡ self.old.device) }
        ensures some { IfSome result (λ ending. channel_of self.new ≡ with_ending ending (channel_of self.old)) }
        ensures none { IfNone result ((channel_of self.new ≡ channel_of self.old) × (known_items self.new.from ≡ [])) }
        ensures stuck { IsFlushed self.old → IsFlushed self.new }
    {
        if self.from.is_empty() {
            return None;
        }
        let mut ending = self.from.pop_known();
        ending.device = self.device;
        self.count = self.count.saturating_add(1);
        self.driver.unpark();
        Some(ending)
    }

    /// Whether the inbox has received as many messages as these. No ending tells of more than the greatest `u64`.
    fn has_received(&self, taken: u64) -> bool
        ensures { result ≡ nat_le taken (gone (channel_of self.now)) }
    {
        taken <= self.gone
    }

    /// Whether a request waits to go into the inbox.
    fn holds_request(&self) -> bool
        ensures { result ≡ list_any is_serve (channel_of self.now).waiting }
    {
        self.waiting.iter().any(is_serve)
    }

    /// Whether an ending can be what its request came to: the inbox has received as many messages as the driver had taken, no
    /// request waits to go there, and no earlier ending was dropped.
    pub(crate) fn accepts(&self, ending: &Ending) -> bool
        ensures { result ≡ accepts (channel_of self.now) ending.now }
    {
        if !self.has_received(ending.taken) {
            return false;
        }
        !self.holds_request() && !self.dropped
    }

    /// An ending of the device was dropped.
    pub(crate) fn mark(&mut self)
        ensures same { SameLink self.old self.new }
        ensures channel { channel_of self.new ≡ marked (channel_of self.old) }
    {
        self.dropped = true;
    }
}
