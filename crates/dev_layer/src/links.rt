//! What the kernel has to do with all drivers, and the messages to them that weren't taken yet.

ghost use Rattle.std.specs.Prelude.{◌≡◌, ◌≤◌, ◌+◌, ◌<◌, ◌^◌, ◌∷◌, ℕ, IfOk, IfSome, None, OnErr, OnOk, Some, [], filter, insert, length, map, option_copied, slice_set, true};
ghost use Rattle.std.specs.List.{All, list_any};
ghost use Rattle.std.specs.Option.{is_some, option_map};
ghost use Rattle.kernel_model.specs.Words.Orders.{entry};
ghost use Rattle.device_model.specs.declared.messages.Message.{Message as MessageView};
ghost use Rattle.device_model.specs.Devices.Endings.{expected_link, served_of};
ghost use Rattle.device_model.specs.Devices.Handing.{has_given, link_emptied, out_of};
ghost use Rattle.device_model.specs.Devices.Tables.{Given as GivenView, Link as LinkView, given_in, link_start, request_in};
ghost use Rattle.device_model.specs.Units.Function.{IsWhole};
ghost use Rattle.dev_layer.specs.Handing.{is_worn};
ghost use Rattle.dev_layer.specs.Links.{IsKind, IsServed};
ghost use Rattle.dev_layer.specs.Messages.{abort_number, allows_link, ended_entry, fits_link, link_asking, links_asked, links_handed, number_in, out_in, put_out, receiver, slot_hands, with_out};

use crate::link::Link;
use crate::rows::Handed;
use crate::units::Moved;
use device_model::bytes::Bytes;
use device_model::messages::{Ending, Message, Request};
use std::alloc::{AllocError, Global};
use std::marker::Model;
use tk_types::{Device, How};

/// The devices by ID, and the messages to their drivers that weren't taken yet, by device and for each in their order.
#[derive(Drop)]
pub(crate) struct Links {
    alloc: Global,
    slots: Vec<Option<Link>>,
    out: Vec<Message>,
}

impl Model for Links {
    ghost use Rattle.std.specs.Prelude.{◌-◌, length, vec_capacity};
    ghost use Rattle.dev_layer.specs.Messages.{AreLinks, LinkTable, attached};

    ghost Value = { LinkTable };

    ghost view = { λ l. record { links = attached l.slots.items 0 l.out.items; places = vec_capacity l.out - length l.out.items } };

    ghost invariant = { λ l. AreLinks l.slots.items l.out.items };
}

/// The device that a message is for.
fn receiver(message: &Message) -> u8
    ensures { result ≡ receiver message.now }
{
    match message {
        Message::Serve { device, .. } => *device,
        Message::Abort { device, .. } => *device,
        Message::Stop { device } => *device,
    }
}

/// The place behind all messages that are for a device or for one before.
fn place_of(out: &[Message], device: u8) -> usize
    ensures within { result ≤ length out.now }
    ensures place { (m : MessageView) → receiver m ≡ device → insert out.now result m ≡ put_out m out.now }
{
    'messages: for place in 0..out.len() {
        if device < receiver(&out[place]) {
            return place;
        }
    }
    out.len()
}

/// No device yet, and then those of a script.
fn slots_of(alloc: Global, devices: &[Device]) -> Result<Vec<Option<Link>>, AllocError>
    requires { All (λ device. IsKind device.kind) devices.now }
    ensures { IfOk result (λ slots. slots.items ≡ None ∷ map link_start devices.now) }
{
    let mut slots = Vec::with_capacity(alloc, devices.len() + 1)?;
    slots.push(None)?;
    'devices: for place in 0..devices.len() {
        slots.push(Some(Link::new(alloc, &devices[place])?))?;
    }
    Ok(slots)
}

/// Whether the driver in a slot has a request.
fn has_given(slot: &Option<Link>) -> bool
    ensures { result ≡ has_given slot.now }
{
    match slot {
        None => false,
        Some(link) => link.has_given(),
    }
}

/// Whether any driver has a request.
fn any_given(slots: &[Option<Link>]) -> bool
    ensures { result ≡ list_any has_given slots.now }
{
    slots.iter().any(|slot| has_given(slot))
}

/// Whether as many requests were handed over to the driver in a slot as can be counted.
fn is_worn(slot: &Option<Link>) -> bool
    ensures { result ≡ is_worn slot.now }
{
    match slot {
        None => false,
        Some(link) => link.number() == u64::MAX,
    }
}

/// Whether as many requests were handed over to some driver as can be counted.
fn any_worn(slots: &[Option<Link>]) -> bool
    ensures { result ≡ list_any is_worn slots.now }
{
    slots.iter().any(|slot| is_worn(slot))
}

/// What stands in a slot.
fn in_slot(slots: &[Option<Link>], device: u8) -> Option<&Link>
    ensures { option_copied result ≡ entry slots.now device }
{
    if device as usize >= slots.len() {
        return None;
    }
    slots[device as usize].as_ref()
}

impl Links {
    /// The devices of a script have the IDs 1, 2, .. in order. There is no message.
    pub(crate) fn new(alloc: Global, devices: &[Device]) -> Result<Links, AllocError>
        requires few { length devices.now ≤ 8 }
        requires kinds { All (λ device. IsKind device.kind) devices.now }
        ensures { IfOk result (λ l. l.links ≡ None ∷ map link_start devices.now) }
    {
        Ok(Links {
            alloc,
            slots: slots_of(alloc, devices)?,
            out: Vec::new(alloc),
        })
    }

    /// How many slots there are: the IDs of devices are below that.
    #[tactic(auto, using(crate::proofs::Attached::length_attached))]
    pub(crate) fn count(&self) -> u8
        ensures count { result ≡ length self.now.links }
        ensures few { result ≤ 9 }
    {
        self.slots.len() as u8
    }

    /// What stands in a slot, without its messages.
    fn slot(&self, device: u8) -> Option<&Link>
        ensures { with_out (out_in (entry self.now.links device)) (option_copied result) ≡ entry self.now.links device }
    {
        in_slot(&self.slots, device)
    }

    /// Whether there is a device with that ID.
    #[tactic(auto, using(crate::proofs::Attached::some_attached))]
    pub(crate) fn has(&self, device: u8) -> bool
        ensures { result ≡ is_some (entry self.now.links device) }
    {
        self.slot(device).is_some()
    }

    /// States, at no cost, that the IDs of devices are from 1 to 8.
    pub(crate) fn known_of_device(&self, device: u8)
        ensures { is_some (entry self.now.links device) ≡ true → (1 ≤ device) × (device ≤ 8) }
    {
        let _slots = &self.slots;
    }

    /// States, at no cost, that there are eight devices at most, and none with the ID 0.
    pub(crate) fn known_of_devices(&self)
        ensures few { length self.now.links ≤ 9 }
        ensures unnamed { entry self.now.links 0 ≡ None }
    {
        let _slots = &self.slots;
    }

    /// The ID of the request that is with the driver of a device.
    pub(crate) fn at_driver(&self, device: u8) -> Option<u8>
        ensures { result ≡ request_in (given_in (entry self.now.links device)) }
    {
        match self.slot(device) {
            None => None,
            Some(link) => link.given_id(),
        }
    }

    /// Whether the driver of a device has a request.
    pub(crate) fn has_given(&self, device: u8) -> bool
        ensures { result ≡ has_given (entry self.now.links device) }
    {
        match self.slot(device) {
            None => false,
            Some(link) => link.has_given(),
        }
    }

    /// Whether any driver has a request.
    #[tactic(auto, using(crate::proofs::Attached::any_attached))]
    pub(crate) fn any_given(&self) -> bool
        ensures { result ≡ list_any has_given self.now.links }
    {
        any_given(&self.slots)
    }

    /// How many requests were handed over to the driver of a device so far.
    pub(crate) fn number(&self, device: u8) -> u64
        ensures { result ≡ number_in (entry self.now.links device) }
    {
        match self.slot(device) {
            None => 0,
            Some(link) => link.number(),
        }
    }

    /// Whether as many requests were handed over to some driver as can be counted; so many never are.
    #[tactic(auto, using(crate::proofs::Attached::worn_attached))]
    pub(crate) fn any_worn(&self) -> bool
        ensures { result ≡ list_any is_worn self.now.links }
    {
        any_worn(&self.slots)
    }

    /// The ending of that kind that is fit now for a device; `None` where none is fit.
    #[tactic(auto, using(crate::proofs::Linked::expected_out))]
    pub(crate) fn expected(&self, device: u8, how: How) -> Result<Option<Ending>, AllocError>
        ensures { IfOk result (λ ending. ending ≡ expected_link device how (entry self.now.links device)) }
    {
        match self.slot(device) {
            None => Ok(None),
            Some(link) => link.expected(self.alloc, device, how),
        }
    }

    /// Whether an ending is fit for what is with its device's driver.
    #[tactic(auto, using(crate::proofs::Linked::fits_out))]
    pub(crate) fn fits(&self, ending: &Ending) -> bool
        ensures { result ≡ fits_link ending.now (entry self.now.links ending.now.device) }
    {
        match self.slot(ending.device) {
            None => false,
            Some(link) => link.fits(ending),
        }
    }

    /// Places for so many messages more are reserved.
    pub(crate) fn reserve(&mut self, count: usize) -> Result<(), AllocError>
        ensures links { self.new.links ≡ self.old.links }
        ensures ok { OnOk result (count ≤ self.new.places) }
    {
        self.out.reserve(count)?;
        Ok(())
    }

    /// The number of the request with a device's driver whose abort wasn't asked yet.
    fn to_abort(&self, device: u8) -> Option<u64>
        ensures { result ≡ abort_number (entry self.now.links device) }
    {
        match self.slot(device) {
            None => None,
            Some(link) => link.to_abort(),
        }
    }

    /// The driver of a device is asked to abort the request that it has, once. An error says that there was no memory for
    /// the message, and that nothing changed.
    pub(crate) fn ask(&mut self, device: u8) -> Result<(), AllocError>
        ensures ok { OnOk result (self.new.links ≡ links_asked self.old.links device) }
        ensures err { OnErr result (self.new.links ≡ self.old.links) }
    {
        let Some(number) = self.to_abort(device) else {
            return Ok(());
        };
        let place = place_of(&self.out, device);
        self.out.insert(place, Message::Abort { device, number })?;
        ask_in(&mut self.slots, device);
        Ok(())
    }

    /// A request goes to the driver of a device, which has none, and a message of it waits to be taken. There is a place for
    /// that.
    pub(crate) fn hand(&mut self, device: u8, handed: Handed)
        requires place { 1 ≤ self.old.places }
        requires free { given_in (entry self.old.links device) ≡ None }
        requires few { number_in (entry self.old.links device) + 1 < 2 ^ 64 }
        requires whole { IsWhole handed.request }
        requires small { handed.request.size ≤ 65536 }
        requires copy { handed.copy ≡ handed.request.bytes }
        ensures links { self.new.links ≡ links_handed self.old.links device handed.request }
        ensures places { self.old.places ≤ self.new.places + 1 }
    {
        if !self.has(device) {
            return;
        }
        let place = place_of(&self.out, device);
        let Handed { request, copy } = handed;
        let message = Message::Serve {
            device,
            request: for_driver(&request, copy),
        };
        let _put = self.out.insert(place, message);
        hand_in(&mut self.slots, device, request);
    }

    /// The request that is with the driver of a device has ended, as it may. What the unit answers.
    pub(crate) fn finish(&mut self, device: u8, how: How) -> Moved
        requires { allows_link how (entry self.old.links device) ≡ true }
        ensures left { self.new.links ≡ slice_set self.old.links device (ended_entry how (entry self.old.links device)) }
        ensures served { (link : LinkView) → (given : GivenView) → entry self.old.links device ≡ Some link → link.given ≡ Some given → IsServed (served_of link.kind link.store given.request how) result.size result.error }
        ensures few { result.size ≤ 65536 }
    {
        finish_in(&mut self.slots, device, how)
    }

    /// The messages leave the table. It takes no memory.
    pub(crate) fn take_messages(&mut self) -> Vec<Message>
        ensures taken { result.items ≡ out_of self.old.links }
        ensures left { self.new.links ≡ map link_emptied self.old.links }
    {
        let none = Vec::new(self.alloc);
        std::mem::replace(&mut self.out, none)
    }
}

/// The abort of what a driver has is asked.
fn ask_in(slots: &mut Vec<Option<Link>>, device: u8)
    ensures { slots.new.items ≡ slice_set slots.old.items device (option_map link_asking (entry slots.old.items device)) }
{
    if device as usize >= slots.len() {
        return;
    }
    if let Some(link) = &mut slots[device as usize] {
        link.ask();
    }
}

/// A request as the message of it has it.
fn for_driver(request: &Request, copy: Bytes) -> Request
    requires { copy ≡ request.now.bytes }
    ensures { result ≡ request.now }
{
    Request {
        id: request.id,
        number: request.number,
        write: request.write,
        start: request.start,
        size: request.size,
        bytes: copy,
    }
}

/// A request goes to the driver in a slot, which has none.
fn hand_in(slots: &mut Vec<Option<Link>>, device: u8, request: Request)
    requires free { given_in (entry slots.old.items device) ≡ None }
    requires few { number_in (entry slots.old.items device) + 1 < 2 ^ 64 }
    requires whole { IsWhole request }
    requires small { request.size ≤ 65536 }
    ensures { slots.new.items ≡ slice_set slots.old.items device (slot_hands request (entry slots.old.items device)) }
{
    if device as usize >= slots.len() {
        return;
    }
    if let Some(link) = &mut slots[device as usize] {
        link.hand(request);
    }
}

/// The request that is with the driver in a slot has ended.
fn finish_in(slots: &mut Vec<Option<Link>>, device: u8, how: How) -> Moved
    requires { allows_link how (entry slots.old.items device) ≡ true }
    ensures left { slots.new.items ≡ slice_set slots.old.items device (ended_entry how (entry slots.old.items device)) }
    ensures served { (link : LinkView) → (given : GivenView) → entry slots.old.items device ≡ Some link → link.given ≡ Some given → IsServed (served_of link.kind link.store given.request how) result.size result.error }
    ensures few { result.size ≤ 65536 }
{
    if device as usize >= slots.len() {
        return Moved::NOTHING;
    }
    match &mut slots[device as usize] {
        None => Moved::NOTHING,
        Some(link) => link.finish(how),
    }
}
