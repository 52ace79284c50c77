//! Waiters for acceptances, endings and closes are served, one at a time.

ghost use Rattle.std.specs.Prelude.{◌≡◌, ◌≤◌, ◌<◌, ◌^◌, IfOk, List, OnErr, OnOk, Some, ℕ, pos, unwrap_or};
ghost use Rattle.std.specs.Option.{is_some};
ghost use Rattle.object_model.specs.Mails.Tables.{Mails as MailsView};
ghost use Rattle.device_model.specs.Devices.Requests.{is_own};
ghost use Rattle.device_model.specs.Devices.Servings.{after_acceptance, is_request_of, is_with_driver, serve_acceptance, serve_close, serve_ending};
ghost use Rattle.dev_layer.specs.Parts.{AreQueued, parts_of};

use crate::accepting::accept;
use crate::requesting::claimed;
use crate::table::{Devices, at_driver};
use crate::waiters::{
    Sought, acceptance_object, close_object, ending_object, find_waiter, first_waiter, picked,
};
use device_model::rows::Wish;
use kernel_base::answers::plain;
use kernel_base::{Base, Order};
use mail_buffer::Mails;
use std::alloc::AllocError;
use task_machine::Memory;
use tk_types::Er;

/// Once its request is accepted, a caller that stays waits for its own ending from now on; any other gets the request's ID.
fn go_on(
    base: &mut Base,
    table: &mut Devices,
    task: u8,
    descriptor: u8,
    id: u8,
    serial: u64,
    stays: bool,
)
    requires small { descriptor ≤ 32 }
    requires queued { AreQueued base.old }
    ensures { (mails : MailsView) → (memory : List ℕ) → after_acceptance (parts_of base.old table.old mails memory) task descriptor id serial stays ≡ parts_of base.new table.new mails memory }
{
    if !stays {
        base.release(task, plain(id as i32));
        return;
    }
    base.move_wait(task, ending_object(descriptor), Order::Fifo);
    table.set_wish(
        task,
        Wish::Ending {
            request: id,
            serial,
            own: true,
        },
    );
}

/// The first that waits for a device to accept its request is served, where there is a place: its request is accepted, or
/// its wait ends with E_LIMIT where no ID is free. An error says that there was no memory for the bytes, and that nothing
/// changed.
#[tactic(auto, unfolding(device_model::specs::Devices::Servings::serve_acceptance))]
pub(crate) fn serve_acceptance(
    base: &mut Base,
    table: &mut Devices,
    mails: &Mails,
    memory: &mut Memory,
    device: u8,
) -> Result<bool, AllocError>
    requires low { 1 ≤ device }
    requires high { device ≤ 8 }
    requires queued { AreQueued base.old }
    ensures served { IfOk result (λ served. served ≡ is_some (serve_acceptance (parts_of base.old table.old mails.now memory.old) device)) }
    ensures left { OnOk result (parts_of base.new table.new mails.now memory.new ≡ unwrap_or (serve_acceptance (parts_of base.old table.old mails.now memory.old) device) (parts_of base.old table.old mails.now memory.old)) }
    ensures err { OnErr result (parts_of base.new table.new mails.now memory.new ≡ parts_of base.old table.old mails.now memory.old) }
{
    let Some(task) = first_waiter(base, acceptance_object(device)) else {
        return Ok(false);
    };
    if !table.has_place(device) {
        return Ok(false);
    }
    let Wish::Acceptance { transfer, stays } = table.wish(task) else {
        return Ok(false);
    };
    let id = table.free_request();
    if id == 0 {
        base.release(task, plain(Er::Limit.main_code()));
        return Ok(true);
    }
    let serial = table.serial();
    accept(table, mails, memory, device, id, transfer)?;
    go_on(base, table, task, transfer.descriptor, id, serial, stays);
    Ok(true)
}

/// Whether a task stayed for the ending of its own request.
fn is_own(wish: Wish) -> bool
    ensures { result ≡ is_own wish }
{
    match wish {
        Wish::Ending { own, .. } => own,
        Wish::AnyEnding => false,
        Wish::Nothing => false,
        Wish::Acceptance { .. } => false,
    }
}

/// The first that waits for an ending of a descriptor and whose request has ended claims it.
#[tactic(auto, unfolding(device_model::specs::Devices::Servings::serve_ending))]
pub(crate) fn serve_ending(base: &mut Base, table: &mut Devices, descriptor: u8) -> bool
    requires small { descriptor ≤ 32 }
    requires queued { AreQueued base.old }
    ensures served { (mails : MailsView) → (memory : List ℕ) → result ≡ is_some (serve_ending (parts_of base.old table.old mails memory) descriptor) }
    ensures left { (mails : MailsView) → (memory : List ℕ) → parts_of base.new table.new mails memory ≡ unwrap_or (serve_ending (parts_of base.old table.old mails memory) descriptor) (parts_of base.old table.old mails memory) }
{
    let sought = Sought::Fulfilled(descriptor);
    let Some(task) = find_waiter(base, table, ending_object(descriptor), sought) else {
        return false;
    };
    let wish = table.wish(task);
    let Some(id) = picked(table, descriptor, wish) else {
        return false;
    };
    base.release(task, claimed(table, is_own(wish), id));
    table.drop_request(id);
    true
}

/// Whether a driver has a request of a descriptor.
#[tactic(auto, unfolding(device_model::specs::Devices::Servings::is_with_driver))]
pub(crate) fn is_with_driver(table: &Devices, descriptor: u8) -> bool
    requires { descriptor ≤ 32 }
    ensures { result ≡ is_with_driver table.now descriptor }
{
    let Some(opened) = table.opened(descriptor) else {
        return false;
    };
    let Some(id) = at_driver(table, opened.device) else {
        return false;
    };
    match table.row(id) {
        None => false,
        Some(row) => row.descriptor() == descriptor,
    }
}

/// The closer of a descriptor goes on once no driver has a request of it, and the descriptor is free then.
#[tactic(auto, unfolding(device_model::specs::Devices::Servings::serve_close))]
pub(crate) fn serve_close(base: &mut Base, table: &mut Devices, descriptor: u8) -> bool
    requires small { descriptor ≤ 32 }
    requires queued { AreQueued base.old }
    ensures served { (mails : MailsView) → (memory : List ℕ) → result ≡ is_some (serve_close (parts_of base.old table.old mails memory) descriptor) }
    ensures left { (mails : MailsView) → (memory : List ℕ) → parts_of base.new table.new mails memory ≡ unwrap_or (serve_close (parts_of base.old table.old mails memory) descriptor) (parts_of base.old table.old mails memory) }
{
    let Some(task) = first_waiter(base, close_object(descriptor)) else {
        return false;
    };
    if is_with_driver(table, descriptor) {
        return false;
    }
    base.release(task, plain(0));
    table.set_free(descriptor);
    true
}
