//! One object is served: by its number, or the first of a kind that can.

ghost use Rattle.std.specs.Prelude.{◌≡◌, ◌≤◌, ◌<◌, ◌^◌, IfOk, List, OnErr, OnOk, ℕ, unwrap_or};
ghost use Rattle.std.specs.Option.{is_some};
ghost use Rattle.object_model.specs.Mails.Tables.{Mails as MailsView};
ghost use Rattle.device_model.specs.Devices.Servings.{serve_acceptances, serve_closes, serve_endings};
ghost use Rattle.dev_layer.specs.Parts.{AreFit, AreQueued, parts_of};
ghost use Rattle.dev_layer.specs.Serving.{at_close, at_device, at_ending, serve_object};

use crate::handing::SUSPENSION;
use crate::serving::{serve_acceptance, serve_close, serve_ending};
use crate::suspending::serve_suspension;
use crate::table::Devices;
use kernel_base::Base;
use mail_buffer::Mails;
use std::alloc::AllocError;
use task_machine::Memory;

/// The numbers of the objects of the first acceptance, the first ending and the first close.
const FIRST_ACCEPTANCE: u32 = 576;

const FIRST_ENDING: u32 = 584;

const FIRST_CLOSE: u32 = 616;

/// Serves once at the object with that number, where that can be: an acceptance, an ending, a close or the suspension.
/// False, with nothing changed, comes exactly where it can't. Memory of the host is taken for the bytes of a request that is
/// accepted, or for their room; where there is none of it nothing changes, nor would it at the 2^64th request of all.
pub fn serve(
    base: &mut Base,
    table: &mut Devices,
    mails: &mut Mails,
    memory: &mut Memory,
    obj: u32,
) -> Result<bool, AllocError>
    requires queued { AreQueued base.old }
    requires fit { AreFit base.old mails.old }
    ensures served { IfOk result (λ served. served ≡ is_some (serve_object (parts_of base.old table.old mails.old memory.old) obj)) }
    ensures left { OnOk result (parts_of base.new table.new mails.new memory.new ≡ unwrap_or (serve_object (parts_of base.old table.old mails.old memory.old) obj) (parts_of base.old table.old mails.old memory.old)) }
    ensures err { OnErr result (parts_of base.new table.new mails.new memory.new ≡ parts_of base.old table.old mails.old memory.old) }
{
    if obj >= FIRST_ACCEPTANCE && obj < FIRST_ENDING {
        return serve_acceptance(
            base,
            table,
            mails,
            memory,
            (obj - (FIRST_ACCEPTANCE - 1)) as u8,
        );
    }
    if obj >= FIRST_ENDING && obj < FIRST_CLOSE {
        return Ok(serve_ending(base, table, (obj - (FIRST_ENDING - 1)) as u8));
    }
    if obj >= FIRST_CLOSE && obj < SUSPENSION {
        return Ok(serve_close(base, table, (obj - (FIRST_CLOSE - 1)) as u8));
    }
    if obj == SUSPENSION {
        return Ok(serve_suspension(base, table, mails, memory));
    }
    Ok(false)
}

/// Serves once at the acceptance of a device, where there is that device.
fn serve_device(
    base: &mut Base,
    table: &mut Devices,
    mails: &Mails,
    memory: &mut Memory,
    device: u8,
) -> Result<bool, AllocError>
    requires queued { AreQueued base.old }
    ensures served { IfOk result (λ served. served ≡ is_some (at_device (parts_of base.old table.old mails.now memory.old) device)) }
    ensures left { OnOk result (parts_of base.new table.new mails.now memory.new ≡ unwrap_or (at_device (parts_of base.old table.old mails.now memory.old) device) (parts_of base.old table.old mails.now memory.old)) }
    ensures err { OnErr result (parts_of base.new table.new mails.now memory.new ≡ parts_of base.old table.old mails.now memory.old) }
{
    table.known_of_device(device);
    if !table.has_device(device) {
        return Ok(false);
    }
    serve_acceptance(base, table, mails, memory, device)
}

/// Serves once at the endings of a descriptor, where it is taken.
fn serve_taken_ending(base: &mut Base, table: &mut Devices, descriptor: u8) -> bool
    requires small { descriptor ≤ 32 }
    requires queued { AreQueued base.old }
    ensures served { (mails : MailsView) → (memory : List ℕ) → result ≡ is_some (at_ending (parts_of base.old table.old mails memory) descriptor) }
    ensures left { (mails : MailsView) → (memory : List ℕ) → parts_of base.new table.new mails memory ≡ unwrap_or (at_ending (parts_of base.old table.old mails memory) descriptor) (parts_of base.old table.old mails memory) }
{
    if table.opened(descriptor).is_none() {
        return false;
    }
    serve_ending(base, table, descriptor)
}

/// Serves once at the close of a descriptor, where it is taken.
fn serve_taken_close(base: &mut Base, table: &mut Devices, descriptor: u8) -> bool
    requires small { descriptor ≤ 32 }
    requires queued { AreQueued base.old }
    ensures served { (mails : MailsView) → (memory : List ℕ) → result ≡ is_some (at_close (parts_of base.old table.old mails memory) descriptor) }
    ensures left { (mails : MailsView) → (memory : List ℕ) → parts_of base.new table.new mails memory ≡ unwrap_or (at_close (parts_of base.old table.old mails memory) descriptor) (parts_of base.old table.old mails memory) }
{
    if table.opened(descriptor).is_none() {
        return false;
    }
    serve_close(base, table, descriptor)
}

/// Serves once at the first device by ID whose acceptance can serve. False, with nothing changed, comes exactly where none
/// can. Memory of the host is taken for the bytes of the request, or for their room; where there is none of it nothing changes,
/// nor would it at the 2^64th request of all.
#[tactic(auto, unfolding(device_model::specs::Devices::Servings::serve_acceptances))]
pub fn serve_first_acceptance(
    base: &mut Base,
    table: &mut Devices,
    mails: &Mails,
    memory: &mut Memory,
) -> Result<bool, AllocError>
    requires queued { AreQueued base.old }
    ensures served { IfOk result (λ served. served ≡ is_some (serve_acceptances (parts_of base.old table.old mails.now memory.old))) }
    ensures left { OnOk result (parts_of base.new table.new mails.now memory.new ≡ unwrap_or (serve_acceptances (parts_of base.old table.old mails.now memory.old)) (parts_of base.old table.old mails.now memory.old)) }
    ensures err { OnErr result (parts_of base.new table.new mails.now memory.new ≡ parts_of base.old table.old mails.now memory.old) }
{
    let count = table.device_slots();
    'devices: for device in 1..count {
        if serve_device(base, table, mails, memory, device)? {
            return Ok(true);
        }
    }
    Ok(false)
}

/// Serves once at the first descriptor whose endings can serve. False, with nothing changed, comes exactly where none can.
/// It takes no memory of the host.
#[tactic(auto, unfolding(device_model::specs::Devices::Servings::serve_endings))]
pub fn serve_first_ending(base: &mut Base, table: &mut Devices) -> bool
    requires queued { AreQueued base.old }
    ensures served { (mails : MailsView) → (memory : List ℕ) → result ≡ is_some (serve_endings (parts_of base.old table.old mails memory)) }
    ensures left { (mails : MailsView) → (memory : List ℕ) → parts_of base.new table.new mails memory ≡ unwrap_or (serve_endings (parts_of base.old table.old mails memory)) (parts_of base.old table.old mails memory) }
{
    table.known_of_descriptors();
    'descriptors: for descriptor in 1..33u8 {
        if serve_taken_ending(base, table, descriptor) {
            return true;
        }
    }
    false
}

/// Serves once at the first descriptor whose close can serve. False, with nothing changed, comes exactly where none can. It
/// takes no memory of the host.
#[tactic(auto, unfolding(device_model::specs::Devices::Servings::serve_closes))]
pub fn serve_first_close(base: &mut Base, table: &mut Devices) -> bool
    requires queued { AreQueued base.old }
    ensures served { (mails : MailsView) → (memory : List ℕ) → result ≡ is_some (serve_closes (parts_of base.old table.old mails memory)) }
    ensures left { (mails : MailsView) → (memory : List ℕ) → parts_of base.new table.new mails memory ≡ unwrap_or (serve_closes (parts_of base.old table.old mails memory)) (parts_of base.old table.old mails memory) }
{
    table.known_of_descriptors();
    'descriptors: for descriptor in 1..33u8 {
        if serve_taken_close(base, table, descriptor) {
            return true;
        }
    }
    false
}
