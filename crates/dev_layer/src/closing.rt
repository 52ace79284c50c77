//! Descriptors are closed.

ghost use Rattle.std.specs.Prelude.{◌≡◌, ◌≤◌, ◌+◌, ◌-◌, ◌<◌, ◌^◌, IfErr, IfOk, IfSome, List, None, OnErr, Some, ℕ, false, filter, true};
ghost use Rattle.std.specs.List.{find, fold};
ghost use Rattle.kernel_model.specs.Words.Checks.{first_error, natural};
ghost use Rattle.kernel_model.specs.Words.Orders.{taken_from};
ghost use Rattle.object_model.specs.Mails.Tables.{Mails};
ghost use Rattle.device_model.specs.Devices.Calls.{aborted, close_checks, close_device, closed_or_begun, device_of, dropped_if, requests_dropped, without_requests, wish_is_of};
ghost use Rattle.device_model.specs.Devices.Servings.{is_of_descriptor, is_with_driver};
ghost use Rattle.device_model.specs.Devices.Tables.{opened_at, row_at, wish_of};
ghost use Rattle.dev_layer.specs.Closing.{earlier, place_of, waits_at};
ghost use Rattle.dev_layer.specs.Parts.{AreQueued, left_with, parts_of};

use crate::requesting::{descriptor_of, open_for_calls};
use crate::serving::is_with_driver;
use crate::table::Devices;
use crate::waiters::{
    Sought, acceptance_object, close_object, ending_object, find_waiter, first_waiter,
};
use device_model::rows::Opened;
use kernel_base::answers::{caller, done, failed, plain};
use kernel_base::{Base, Order};
use kernel_model::marks::Mark;
use std::alloc::AllocError;
use tk_types::{Er, Outcome, Who};

/// The place of a task among all by the beginning of their last waits.
fn place_of(base: &Base, task: u8) -> u64
    ensures { result ≡ place_of base.now task }
{
    match base.view(task) {
        None => 0,
        Some(view) => view.since.unwrap_or(0),
    }
}

/// Which of two tasks began to wait earlier, where there are both.
fn earlier(base: &Base, one: Option<u8>, other: Option<u8>) -> Option<u8>
    ensures { result ≡ earlier base.now one other }
{
    let Some(first) = one else {
        return other;
    };
    let Some(second) = other else {
        return one;
    };
    if place_of(base, first) <= place_of(base, second) {
        one
    } else {
        other
    }
}

/// The first task that waits on a descriptor of a device, for an ending or for an acceptance, by the beginning of the waits.
fn first_on(base: &Base, table: &Devices, descriptor: u8, device: u8) -> Option<u8>
    requires small { descriptor ≤ 32 }
    requires low { 1 ≤ device }
    requires high { device ≤ 8 }
    requires queued { AreQueued base.now }
    ensures { result ≡ find (waits_at (584 + (descriptor - 1)) (575 + device) (λ t. wish_is_of descriptor (wish_of table.now t)) base.now) base.now.since }
{
    let ending = first_waiter(base, ending_object(descriptor));
    let accepted = find_waiter(
        base,
        table,
        acceptance_object(device),
        Sought::Asking(descriptor),
    );
    earlier(base, ending, accepted)
}

/// The waits on a descriptor of a device end with E_ABORT, in the order in which they began.
fn abort_waits(base: &mut Base, table: &Devices, descriptor: u8, device: u8)
    requires small { descriptor ≤ 32 }
    requires low { 1 ≤ device }
    requires high { device ≤ 8 }
    requires queued { AreQueued base.old }
    ensures aborted { base.new ≡ fold aborted base.old (filter (waits_at (584 + (descriptor - 1)) (575 + device) (λ t. wish_is_of descriptor (wish_of table.now t)) base.old) base.old.since) }
    ensures queued { AreQueued base.new }
    ensures made { base.new.made ≡ base.old.made }
    ensures time { base.new.time ≡ base.old.time }
{
    'waits: while let Some(task) = first_on(base, table, descriptor, device) {
        base.release(task, plain(Er::Abort.main_code()));
    }
}

/// Whether the request with that ID is one of a descriptor.
fn is_of(table: &Devices, id: u8, descriptor: u8) -> bool
    ensures { result ≡ is_of_descriptor descriptor (row_at table.now id) }
{
    match table.row(id) {
        None => false,
        Some(row) => row.descriptor() == descriptor,
    }
}

/// The request with that ID is let go where it is one of a descriptor.
fn drop_if(table: &mut Devices, id: u8, descriptor: u8)
    ensures { table.new ≡ dropped_if descriptor table.old id }
{
    if is_of(table, id, descriptor) {
        table.drop_request(id);
    }
}

/// All requests of a descriptor are let go but the one that is with a driver.
fn drop_requests(table: &mut Devices, descriptor: u8)
    ensures { table.new ≡ requests_dropped table.old descriptor }
{
    let slots = table.request_slots();
    'requests: for id in 1..slots {
        drop_if(table, id, descriptor);
    }
}

/// A descriptor whose requests no driver has is free, and a call that closed it returns.
fn close_free(base: &mut Base, table: &mut Devices, task: u8, descriptor: u8, device: u8) -> Outcome
    requires small { descriptor ≤ 32 }
    requires low { 1 ≤ device }
    requires high { device ≤ 8 }
    requires device { device ≡ device_of table.old descriptor }
    requires queued { AreQueued base.old }
    ensures { (mails : Mails) → (memory : List ℕ) → closed_or_begun false (without_requests (parts_of base.old table.old mails memory) descriptor) task descriptor ≡ left_with (parts_of base.new table.new mails memory) result }
{
    abort_waits(base, table, descriptor, device);
    drop_requests(table, descriptor);
    table.set_free(descriptor);
    done(0)
}

/// A request that is with the driver is asked to abort, and the caller waits for its ending. An error says that there was
/// no memory for the message, and that nothing changed.
fn close_begun(
    base: &mut Base,
    table: &mut Devices,
    task: u8,
    descriptor: u8,
    opened: Opened,
) -> Result<Outcome, AllocError>
    requires few { base.old.made < 2 ^ 63 }
    requires early { base.old.time < 2 ^ 63 }
    requires small { descriptor ≤ 32 }
    requires low { 1 ≤ opened.device }
    requires high { opened.device ≤ 8 }
    requires opened { opened_at table.old descriptor ≡ Some opened }
    requires queued { AreQueued base.old }
    ensures ok { IfOk result (λ outcome. (mails : Mails) → (memory : List ℕ) → closed_or_begun true (without_requests (parts_of base.old table.old mails memory) descriptor) task descriptor ≡ left_with (parts_of base.new table.new mails memory) outcome) }
    ensures err { OnErr result ((base.new ≡ base.old) × (table.new ≡ table.old)) }
{
    table.ask(opened.device)?;
    abort_waits(base, table, descriptor, opened.device);
    drop_requests(table, descriptor);
    table.set_opened(
        descriptor,
        Opened {
            device: opened.device,
            mode: opened.mode,
            closing: true,
        },
    );
    base.make_wait(task, close_object(descriptor), Order::Fifo, -1);
    Ok(Outcome::Blocked)
}

/// `tk_cls_dev`: the waits on a descriptor and its requests end, and it is free once no driver has one of them. An error says
/// that there was no memory for the message to the driver, and that nothing changed.
#[tactic(auto, unfolding(device_model::specs::Devices::Calls::close_device))]
pub(crate) fn close_device(
    base: &mut Base,
    table: &mut Devices,
    who: Who,
    descriptor: i32,
) -> Result<Outcome, AllocError>
    requires few { base.old.made < 2 ^ 63 }
    requires early { base.old.time < 2 ^ 63 }
    requires queued { AreQueued base.old }
    ensures ok { IfOk result (λ outcome. (mails : Mails) → (memory : List ℕ) → close_device (parts_of base.old table.old mails memory) who descriptor ≡ left_with (parts_of base.new table.new mails memory) outcome) }
    ensures err { OnErr result ((base.new ≡ base.old) × (table.new ≡ table.old)) }
{
    let Some(descriptor) = descriptor_of(descriptor) else {
        return Ok(failed(Er::Id));
    };
    if !base.allows(who, Mark::MayWait) {
        return Ok(failed(Er::Ctx));
    }
    let Some(opened) = open_for_calls(table, descriptor) else {
        return Ok(failed(Er::Id));
    };
    if !is_with_driver(table, descriptor) {
        return Ok(close_free(base, table, caller(who), descriptor, opened.device));
    }
    close_begun(base, table, caller(who), descriptor, opened)
}
