//! Endings arrive.

ghost use Rattle.std.specs.Prelude.{◌≡◌, ◌≤◌, IfSome, unwrap_or, true};
ghost use Rattle.std.specs.Option.{is_some};
ghost use Rattle.object_model.specs.Mails.Tables.{Mails};
ghost use Rattle.device_model.specs.Devices.Endings.{arrive, closed};
ghost use Rattle.device_model.specs.Devices.Memory.{write_bytes};
ghost use Rattle.dev_layer.specs.Arriving.{request_at};
ghost use Rattle.dev_layer.specs.Parts.{AreQueued, parts_of};

use crate::table::{Devices, at_driver};
use device_model::messages::Ending;
use kernel_base::{Base, Order};
use task_machine::{Memory, size, write_bytes};

/// The object for which the closer of the first descriptor waits.
pub(crate) const FIRST_CLOSE: u32 = 616;

/// Bytes that were read land in the script's memory, from an address on, as far as it goes.
pub(crate) fn land(memory: &mut Memory, address: u32, bytes: &[u8])
    ensures { memory.new ≡ write_bytes bytes.now address memory.old }
{
    let end = size(memory);
    if address > end {
        return;
    }
    let room = (end - address) as usize;
    write_bytes(memory, address, &bytes[..bytes.len().min(room)]);
}

/// A request that has ended is let go where its descriptor is being closed, and the descriptor with it, where its closer no
/// longer waits.
#[tactic(auto, unfolding(device_model::specs::Devices::Tables::dropped))]
fn close_after(base: &Base, table: &mut Devices, id: u8, descriptor: u8)
    requires small { descriptor ≤ 32 }
    requires queued { AreQueued base.now }
    ensures { table.new ≡ closed base.now table.old id descriptor }
{
    let Some(opened) = table.opened(descriptor) else {
        return;
    };
    if !opened.closing {
        return;
    }
    table.drop_request(id);
    let object = FIRST_CLOSE + (descriptor as u32).saturating_sub(1);
    if base.waiter(Order::Fifo, object, 0).is_none() {
        table.set_free(descriptor);
    }
}

/// The request that is with the driver of a device: its ID, where its bytes go, and its descriptor.
#[derive(Clone, Copy)]
struct Expected {
    id: u8,
    address: u32,
    descriptor: u8,
}

/// The request that is with the driver of a device, where it is with it by the table of requests, too.
fn request_at(table: &Devices, device: u8) -> Option<Expected>
    ensures known { result ≡ request_at table.now device }
    ensures small { IfSome result (λ e. e.descriptor ≤ 32) }
{
    let id = at_driver(table, device)?;
    let row = table.row(id)?;
    if !row.is_at_driver() {
        return None;
    }
    Some(Expected {
        id,
        address: row.address(),
        descriptor: row.descriptor(),
    })
}

/// An ending arrives, where it is fit: the store becomes that of the unit, what was read lands in the script's memory, and
/// the request has ended; or it is let go where its descriptor is being closed. False, with nothing changed, comes exactly
/// where the ending isn't fit. It takes no memory of the host.
#[tactic(auto, unfolding(device_model::specs::Devices::Endings::arrive))]
pub fn arrive(base: &Base, table: &mut Devices, memory: &mut Memory, ending: &Ending) -> bool
    requires queued { AreQueued base.now }
    ensures taken { (mails : Mails) → result ≡ is_some (arrive (parts_of base.now table.old mails memory.old) ending.now) }
    ensures left { (mails : Mails) → parts_of base.now table.new mails memory.new ≡ unwrap_or (arrive (parts_of base.now table.old mails memory.old) ending.now) (parts_of base.now table.old mails memory.old) }
{
    if !table.fits(ending) {
        return false;
    }
    let Some(request) = request_at(table, ending.device) else {
        return false;
    };
    land(memory, request.address, ending.bytes.as_slice());
    table.end(ending.device, request.id, ending.how);
    close_after(base, table, request.id, request.descriptor);
    true
}
