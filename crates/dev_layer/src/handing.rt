//! Requests go to drivers.

ghost use Rattle.std.specs.Prelude.{◌≡◌, ◌≤◌, ◌+◌, ◌<◌, ◌^◌, ◌&&◌, ℕ, OnErr, OnOk, Some, drop, length};
ghost use Rattle.std.specs.List.{find};
ghost use Rattle.std.specs.Option.{is_some};
ghost use Rattle.kernel_model.specs.Words.Orders.{entry, taken_from};
ghost use Rattle.device_model.specs.Devices.Handing.{handed_all, hand_first};
ghost use Rattle.device_model.specs.Devices.Tables.{Devices as DevicesView, device_ids, handed};
ghost use Rattle.dev_layer.specs.Handing.{MayCount, handed_over, with_parts};
ghost use Rattle.dev_layer.specs.Messages.{number_in};
ghost use Rattle.dev_layer.specs.Parts.{AreQueued};
ghost use Rattle.dev_layer.specs.Requests.{first_waiting};
ghost use Rattle.dev_layer.specs.Tables.{requests_of};

use crate::links::Links;
use crate::requests::Requests;
use crate::table::Devices;
use kernel_base::{Base, Order};
use std::alloc::AllocError;
use tk_types::Mode;

/// The object for which the caller of a suspension waits.
pub(crate) const SUSPENSION: u32 = 648;

/// The first request that waits for the driver of a device goes to it, where it has none. There is a place for the message.
pub(crate) fn hand_one(links: &mut Links, requests: &mut Requests, device: u8)
    requires place { 1 ≤ links.old.places }
    requires few { number_in (entry links.old.links device) + 1 < 2 ^ 64 }
    ensures handed { (dv : DevicesView) → dv.links ≡ links.old.links → requests_of dv ≡ requests.old → handed dv device ≡ with_parts dv links.new.links requests.new }
    ensures places { links.old.places ≤ links.new.places + 1 }
    ensures others { (n : ℕ) → (n ≡ device → ⊥) → entry links.new.links n ≡ entry links.old.links n }
{
    if !links.has(device) {
        return;
    }
    if links.has_given(device) {
        return;
    }
    let Some(id) = requests.first_waiting(device) else {
        return;
    };
    let Some(handed) = requests.hand(id, links.number(device) + 1) else {
        return;
    };
    links.hand(device, handed);
}

/// Each driver without a request gets the first that waits for it. There are places for the messages.
pub(crate) fn hand_each(links: &mut Links, requests: &mut Requests)
    requires places { length links.old.links ≤ links.old.places }
    requires few { MayCount links.old.links }
    ensures { (dv : DevicesView) → dv.links ≡ links.old.links → requests_of dv ≡ requests.old → handed_all (device_ids dv) dv ≡ with_parts dv links.new.links requests.new }
{
    let count = links.count();
    'devices: for device in 1..count {
        hand_one(links, requests, device);
    }
}

/// Whether there is a device with that ID, for whose driver a request waits.
fn waits_at(links: &Links, requests: &Requests, device: u8) -> bool
    ensures { result ≡ (is_some (entry links.now.links device) && is_some (first_waiting requests.now device)) }
{
    links.has(device) && requests.first_waiting(device).is_some()
}

/// The least device for whose driver a request waits.
pub(crate) fn first_device(links: &Links, requests: &Requests) -> Option<u8>
    ensures { result ≡ find (λ d. is_some (first_waiting requests.now d)) (taken_from 1 (drop 1 links.now.links)) }
{
    let count = links.count();
    'devices: for device in 1..count {
        if waits_at(links, requests, device) {
            return Some(device);
        }
    }
    None
}

/// Requests go to drivers. In free mode each driver without a request gets the first that waits for it, unless a task waits
/// for a suspension. In sync mode nothing is done without `idle`; with it the least device for whose driver a request waits
/// gets its first. An error says that there was no memory for the messages, or that a driver has had 2^64 - 1 requests, as none
/// ever has, and that nothing changed.
#[tactic(auto, unfolding(device_model::specs::Devices::Handing::hand_over))]
pub fn hand_over(base: &Base, table: &mut Devices, mode: Mode, idle: bool) -> Result<(), AllocError>
    requires queued { AreQueued base.now }
    ensures ok { OnOk result (table.new ≡ handed_over mode idle base.now table.old) }
    ensures err { OnErr result (table.new ≡ table.old) }
{
    match mode {
        Mode::Free => {
            if base.waiter(Order::Fifo, SUSPENSION, 0).is_some() {
                return Ok(());
            }
            table.hand_all()
        }
        Mode::Sync => {
            if !idle {
                return Ok(());
            }
            table.hand_first()
        }
    }
}
