//! The table of devices, descriptors and requests, and the moves on it.

ghost use Rattle.std.specs.Prelude.{◌≡◌, ◌≤◌, ◌+◌, ◌<◌, ◌^◌, ℕ, IfOk, IfSome, None, OnErr, OnOk, Some, [], count_by, drop, length, nat_lt, option_copied, replicate, slice_index, true};
ghost use Rattle.std.specs.List.{find, list_any};
ghost use Rattle.std.specs.Option.{is_some};
ghost use Rattle.kernel_model.specs.Words.Orders.{free_from};
ghost use Rattle.device_model.specs.declared.rows.Wish.TheVariants.{Nothing};
ghost use Rattle.device_model.specs.Devices.Calls.{has_request};
ghost use Rattle.device_model.specs.Devices.Endings.{expected};
ghost use Rattle.device_model.specs.Devices.Handing.{any_given, any_queued, emptied, hand_first, handed_all, messages};
ghost use Rattle.device_model.specs.Devices.Requests.{has_ended_of, has_place};
ghost use Rattle.device_model.specs.Devices.Tables.{accepted, asked, at_driver, buffer_of, devices_start, device_ids, dropped, first_queued, free_descriptor, free_request, link_at, opened_at, queues_on, row_at, wish_of, with_buffer, with_off, with_open, with_wish};
ghost use Rattle.dev_layer.specs.Arriving.{ended_parts};
ghost use Rattle.dev_layer.specs.Messages.{allows_link, fits_link};
ghost use Rattle.dev_layer.specs.Tables.{AreDevices, HasDescriptor, IsOpened, IsWish};

use crate::handing::{first_device, hand_each, hand_one};
use crate::links::Links;
use crate::requests::Requests;
use crate::rows::Row;
use device_model::messages::{Ending, Message};
use device_model::rows::{Opened, Wish};
use std::alloc::{AllocError, Global};
use std::marker::Model;
use tk_types::{How, Script};

/// The most unfinished requests of a device.
const MOST_UNFINISHED: usize = 16;

/// The devices with their drivers, units, descriptors and requests; the event buffer of each, how often suspending is
/// disabled, and what each task asked for when it last waited for one. It has a copy of each unit's store, which follows
/// the endings that arrive.
#[derive(Drop)]
pub struct Devices {
    alloc: Global,
    links: Links,
    requests: Requests,
    buffers: Vec<u8>,
    off: u16,
    opened: Vec<Option<Opened>>,
    wishes: Vec<Wish>,
}

impl Model for Devices {
    ghost use Rattle.device_model.specs.Devices.Tables.{Devices as DevicesView};
    ghost use Rattle.dev_layer.specs.Tables.{AreTables};

    ghost Value = { DevicesView };

    ghost view = { λ d. record { links = d.links.links; buffers = d.buffers.items; off = d.off; opened = d.opened.items; rows = d.requests.rows; queued = d.requests.queued; ended = d.requests.ended; serial = d.requests.serial; wishes = d.wishes.items } };

    ghost invariant = { λ d. AreTables d.buffers.items d.opened.items d.wishes.items };
}

/// No event buffer for each device.
fn no_buffers(alloc: Global) -> Result<Vec<u8>, AllocError>
    ensures { IfOk result (λ buffers. buffers.items ≡ replicate 9 0) }
{
    vec![in alloc; 0u8; 9]
}

/// Free descriptors.
fn free_slots(alloc: Global) -> Result<Vec<Option<Opened>>, AllocError>
    ensures { IfOk result (λ slots. slots.items ≡ replicate 33 None) }
{
    let mut slots = Vec::with_capacity(alloc, 33)?;
    'slots: for _descriptor in 0..33usize {
        slots.push(None)?;
    }
    Ok(slots)
}

/// Nothing that each task asked for.
fn no_wishes(alloc: Global) -> Result<Vec<Wish>, AllocError>
    ensures { IfOk result (λ wishes. wishes.items ≡ replicate 256 Nothing) }
{
    let mut wishes = Vec::with_capacity(alloc, 256)?;
    'tasks: for _task in 0..256usize {
        wishes.push(Wish::Nothing)?;
    }
    Ok(wishes)
}

/// The least free descriptor, or 0.
#[tactic(auto, unfolding(kernel_model::specs::Words::Orders::free_from))]
fn least_free(slots: &[Option<Opened>]) -> u8
    requires { length slots.now ≡ 33 }
    ensures free { result ≡ free_from 1 (drop 1 slots.now) }
    ensures within { result ≤ 32 }
{
    'slots: for descriptor in 1..33usize {
        if slots[descriptor].is_none() {
            return descriptor as u8;
        }
    }
    0
}

impl Devices {
    /// The devices of a script, of which there are at most eight, each with the numbers of its kind in range. They have the
    /// IDs 1, 2, .. in order, and nothing is open. The stores are reserved whole.
    #[tactic(auto, unfolding(device_model::specs::Devices::Tables::devices_start))]
    pub fn new(alloc: Global, script: &Script) -> Result<Devices, AllocError>
        requires { AreDevices script.now.devices }
        ensures { IfOk result (λ table. table ≡ devices_start script.now) }
    {
        Ok(Devices {
            alloc,
            links: Links::new(alloc, script.devices.as_slice())?,
            requests: Requests::new(alloc)?,
            buffers: no_buffers(alloc)?,
            off: 0,
            opened: free_slots(alloc)?,
            wishes: no_wishes(alloc)?,
        })
    }

    /// States, at no cost, that the table has a place for each task.
    pub fn known_of_tasks(&self)
        ensures { length self.now.wishes ≡ 256 }
    {
        let _wishes = &self.wishes;
    }

    /// States, at no cost, that the IDs of devices are from 1 to 8, those of opened ones too, and that whatever task wishes for an
    /// acceptance does so by a descriptor up to 32.
    pub fn known_of_devices(&self)
        ensures few { length self.now.links ≤ 9 }
        ensures unnamed { link_at self.now 0 ≡ None }
        ensures opened { (dd : ℕ) → IsOpened (opened_at self.now dd) }
        ensures wished { (t : ℕ) → HasDescriptor (wish_of self.now t) }
    {
        self.links.known_of_devices();
        let _opened = &self.opened;
    }

    /// Where what the table keeps is allocated.
    pub(crate) fn alloc(&self) -> Global {
        self.alloc
    }

    /// How many slots for devices there are: the IDs of devices are below that.
    pub(crate) fn device_slots(&self) -> u8
        ensures count { result ≡ length self.now.links }
        ensures few { result ≤ 9 }
    {
        self.links.count()
    }

    /// Whether there is a device with that ID.
    pub(crate) fn has_device(&self, device: u8) -> bool
        ensures { result ≡ is_some (link_at self.now device) }
    {
        self.links.has(device)
    }

    /// States, at no cost, that the IDs of devices are from 1 to 8.
    pub(crate) fn known_of_device(&self, device: u8)
        ensures { is_some (link_at self.now device) ≡ true → (1 ≤ device) × (device ≤ 8) }
    {
        self.links.known_of_device(device);
    }

    /// Whether any driver has a request.
    pub fn any_given(&self) -> bool
        ensures { result ≡ any_given self.now }
    {
        self.links.any_given()
    }

    /// Whether any request waits for a driver.
    pub fn any_queued(&self) -> bool
        ensures { result ≡ any_queued self.now }
    {
        !self.requests.queued().is_empty()
    }

    /// The event buffer of a device, or 0.
    pub(crate) fn buffer(&self, device: u8) -> u8
        requires { device ≤ 8 }
        ensures { result ≡ buffer_of self.now device }
    {
        self.buffers[device as usize]
    }

    /// A device has another event buffer.
    pub(crate) fn set_buffer(&mut self, device: u8, id: u8)
        requires { device ≤ 8 }
        ensures { self.new ≡ with_buffer self.old device id }
    {
        self.buffers[device as usize] = id;
    }

    /// How often suspending is disabled.
    pub(crate) fn off(&self) -> u16
        ensures { result ≡ self.now.off }
    {
        self.off
    }

    /// Suspending is disabled so many times.
    pub(crate) fn set_off(&mut self, off: u16)
        ensures { self.new ≡ with_off self.old off }
    {
        self.off = off;
    }

    /// The descriptor with that number.
    pub(crate) fn opened(&self, descriptor: u8) -> Option<Opened>
        requires { descriptor ≤ 32 }
        ensures opened { result ≡ opened_at self.now descriptor }
        ensures low { IfSome result (λ opened. 1 ≤ opened.device) }
        ensures high { IfSome result (λ opened. opened.device ≤ 8) }
    {
        self.opened[descriptor as usize]
    }

    /// States, at no cost, that there is a slot for each descriptor.
    pub(crate) fn known_of_descriptors(&self)
        ensures { length self.now.opened ≡ 33 }
    {
        let _opened = &self.opened;
    }

    /// The descriptors by their numbers.
    pub(crate) fn descriptors(&self) -> &[Option<Opened>]
        ensures slots { result.now ≡ self.now.opened }
        ensures all { length result.now ≡ 33 }
    {
        self.opened.as_slice()
    }

    /// A descriptor is taken, or is being closed.
    pub(crate) fn set_opened(&mut self, descriptor: u8, opened: Opened)
        requires small { descriptor ≤ 32 }
        requires low { 1 ≤ opened.device }
        requires high { opened.device ≤ 8 }
        ensures { self.new ≡ with_open self.old descriptor (Some opened) }
    {
        self.opened[descriptor as usize] = Some(opened);
    }

    /// A descriptor is free again.
    pub(crate) fn set_free(&mut self, descriptor: u8)
        requires { descriptor ≤ 32 }
        ensures { self.new ≡ with_open self.old descriptor None }
    {
        self.opened[descriptor as usize] = None;
    }

    /// The least free descriptor, or 0.
    #[tactic(auto, unfolding(device_model::specs::Devices::Tables::free_descriptor))]
    pub(crate) fn free_descriptor(&self) -> u8
        ensures free { result ≡ free_descriptor self.now }
        ensures within { result ≤ 32 }
    {
        least_free(&self.opened)
    }

    /// What a task asked for when it last waited for a device.
    pub(crate) fn wish(&self, task: u8) -> Wish
        ensures wish { result ≡ wish_of self.now task }
        ensures inside { IsWish result }
    {
        self.wishes[task as usize]
    }

    /// A task asks for something.
    pub(crate) fn set_wish(&mut self, task: u8, wish: Wish)
        requires { IsWish wish }
        ensures { self.new ≡ with_wish self.old task wish }
    {
        self.wishes[task as usize] = wish;
    }

    /// The request with that ID.
    pub(crate) fn row(&self, id: u8) -> Option<&Row>
        ensures { option_copied result ≡ row_at self.now id }
    {
        self.requests.row(id)
    }

    /// How many slots for requests there are: 65.
    pub(crate) fn request_slots(&self) -> u8
        ensures slots { result ≡ length self.now.rows }
        ensures all { result ≡ 65 }
    {
        self.requests.slots() as u8
    }

    /// The least free request ID, or 0.
    #[tactic(auto, unfolding(device_model::specs::Devices::Tables::free_request))]
    pub(crate) fn free_request(&self) -> u8
        ensures free { result ≡ free_request self.now }
        ensures within { result ≤ 64 }
    {
        self.requests.free()
    }

    /// The serial of the next request.
    pub(crate) fn serial(&self) -> u64
        ensures { result ≡ self.now.serial }
    {
        self.requests.serial()
    }

    /// Whether there is a serial for one request more; there always is.
    pub(crate) fn has_serial(&self) -> bool
        ensures { result ≡ nat_lt (self.now.serial + 1) (2 ^ 64) }
    {
        self.requests.serial() < u64::MAX
    }

    /// Whether a device takes one request more.
    pub(crate) fn has_place(&self, device: u8) -> bool
        ensures { result ≡ has_place self.now device }
    {
        self.requests.unfinished(device) < MOST_UNFINISHED
    }

    /// Whether there is a request of a descriptor.
    pub(crate) fn has_request(&self, descriptor: u8) -> bool
        ensures { result ≡ has_request self.now descriptor }
    {
        self.requests.any_of(descriptor)
    }

    /// The request of a descriptor that ended first.
    pub(crate) fn first_ended(&self, descriptor: u8) -> Option<u8>
        ensures { result ≡ find (λ id. has_ended_of descriptor (row_at self.now id)) self.now.ended }
    {
        self.requests.first_ended(descriptor)
    }

    /// A request takes an ID that is free, and the next serial.
    pub(crate) fn accept(&mut self, id: u8, row: Row)
        requires within { id ≤ 64 }
        requires few { self.old.serial + 1 < 2 ^ 64 }
        ensures { self.new ≡ accepted self.old id row }
    {
        self.requests.accept(id, row);
    }

    /// A request is let go, unless it is with a driver.
    pub(crate) fn drop_request(&mut self, id: u8)
        ensures { self.new ≡ dropped self.old id }
    {
        self.requests.drop_request(id);
    }

    /// The driver of a device is asked to abort the request that it has, once. An error says that there was no memory, and
    /// that nothing changed.
    pub(crate) fn ask(&mut self, device: u8) -> Result<(), AllocError>
        ensures ok { OnOk result (self.new ≡ asked self.old device) }
        ensures err { OnErr result (self.new ≡ self.old) }
    {
        self.links.ask(device)?;
        Ok(())
    }

    /// Each driver without a request gets the first that waits for it. An error says that there was no memory for the
    /// messages, or no number for one more request, and that nothing changed.
    pub(crate) fn hand_all(&mut self) -> Result<(), AllocError>
        ensures ok { OnOk result (self.new ≡ handed_all (device_ids self.old) self.old) }
        ensures err { OnErr result (self.new ≡ self.old) }
    {
        if self.links.any_worn() {
            return Err(AllocError);
        }
        let count = self.links.count() as usize;
        self.links.reserve(count)?;
        hand_each(&mut self.links, &mut self.requests);
        Ok(())
    }

    /// The least device for whose driver a request waits gets its first. An error says that there was no memory for the
    /// message, or no number for the request, and that nothing changed.
    #[tactic(auto, unfolding(device_model::specs::Devices::Handing::hand_first))]
    pub(crate) fn hand_first(&mut self) -> Result<(), AllocError>
        ensures ok { OnOk result (self.new ≡ hand_first self.old) }
        ensures err { OnErr result (self.new ≡ self.old) }
    {
        let Some(device) = first_device(&self.links, &self.requests) else {
            return Ok(());
        };
        if self.links.number(device) == u64::MAX {
            return Err(AllocError);
        }
        self.links.reserve(1)?;
        hand_one(&mut self.links, &mut self.requests, device);
        Ok(())
    }

    /// Whether an ending is fit for what is with its device's driver.
    pub(crate) fn fits(&self, ending: &Ending) -> bool
        ensures { result ≡ fits_link ending.now (link_at self.now ending.now.device) }
    {
        self.links.fits(ending)
    }

    /// The request that is with the driver of a device has ended, as it may.
    pub(crate) fn end(&mut self, device: u8, id: u8, how: How)
        requires { allows_link how (link_at self.old device) ≡ true }
        ensures { self.new ≡ ended_parts self.old device id how }
    {
        let moved = self.links.finish(device, how);
        self.requests.end(id, moved.size, moved.error);
    }
}

/// The ID of the request that is with the driver of a device; `None` exactly where there is none. It takes no memory.
#[tactic(auto, unfolding(device_model::specs::Devices::Tables::at_driver))]
pub fn at_driver(table: &Devices, device: u8) -> Option<u8>
    ensures { result ≡ at_driver table.now device }
{
    table.links.at_driver(device)
}

/// The ID of the first request that waits for the driver of a device; `None` exactly where there is none. It takes no memory.
#[tactic(auto, unfolding(device_model::specs::Devices::Tables::first_queued))]
pub fn first_queued(table: &Devices, device: u8) -> Option<u8>
    ensures { result ≡ first_queued table.now device }
{
    table.requests.first_waiting(device)
}

/// The ending of that kind that is fit now for a device, with no message taken; `None` exactly where none is fit now.
#[tactic(auto, unfolding(device_model::specs::Devices::Endings::expected))]
pub fn expected(table: &Devices, device: u8, how: How) -> Result<Option<Ending>, AllocError>
    ensures { IfOk result (λ ending. ending ≡ expected table.now device how) }
{
    table.links.expected(device, how)
}

/// The messages that weren't taken yet, by device and for each in their order. They leave the table. It takes no memory.
#[tactic(auto, unfolding(device_model::specs::Devices::Handing::messages, device_model::specs::Devices::Handing::emptied))]
pub fn messages(table: &mut Devices) -> Vec<Message>
    ensures taken { result.items ≡ messages table.old }
    ensures left { table.new ≡ emptied table.old }
{
    table.links.take_messages()
}
