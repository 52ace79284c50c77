//! Those that wait for acceptances and endings, and what they asked for.

ghost use Rattle.std.specs.Prelude.{◌≡◌, ◌≤◌, ◌+◌, ◌-◌, slice_get};
ghost use Rattle.std.specs.List.{find, list_any};
ghost use Rattle.std.specs.Option.{is_some};
ghost use Rattle.kernel_model.specs.Tasks.Base.{fifo_queue};
ghost use Rattle.device_model.specs.Devices.Calls.{is_any_task, wants, wants_any, will_stay, wish_is_of};
ghost use Rattle.device_model.specs.Devices.Requests.{has_ended_with, picked};
ghost use Rattle.device_model.specs.Devices.Tables.{row_at, wish_of};
ghost use Rattle.dev_layer.specs.Parts.{AreQueued};
ghost use Rattle.dev_layer.specs.Waiters.{is_sought};

use crate::table::Devices;
use device_model::rows::Wish;
use kernel_base::{Base, Order};

/// One less than the number of the object for which tasks wait that want a request of theirs to be accepted by device 1.
const BEFORE_ACCEPTANCES: u32 = 575;

/// The number of the object for which tasks wait that want an ending of descriptor 1.
const FIRST_ENDING: u32 = 584;

/// The number of the object for which the closer of descriptor 1 waits.
const FIRST_CLOSE: u32 = 616;

/// The object of the acceptances of a device.
pub(crate) fn acceptance_object(device: u8) -> u32
    ensures { result ≡ 575 + device }
{
    BEFORE_ACCEPTANCES + device as u32
}

/// The object of the endings of a descriptor.
pub(crate) fn ending_object(descriptor: u8) -> u32
    ensures { result ≡ 584 + (descriptor - 1) }
{
    FIRST_ENDING + (descriptor as u32).saturating_sub(1)
}

/// The object of the close of a descriptor.
pub(crate) fn close_object(descriptor: u8) -> u32
    ensures { result ≡ 616 + (descriptor - 1) }
{
    FIRST_CLOSE + (descriptor as u32).saturating_sub(1)
}

/// What is looked for among those that wait.
#[derive(Clone, Copy)]
pub(crate) enum Sought {
    /// One that wants any ending of its descriptor.
    AnyEnding,
    /// One that wants the ending of the request with that ID.
    EndingOf(u8),
    /// One that will stay for the ending of its request of that descriptor once it is accepted.
    Staying(u8),
    /// One that wants a request of that descriptor to be accepted.
    Asking(u8),
    /// One whose ending of that descriptor is there.
    Fulfilled(u8),
}

/// Whether the request with that ID is one of a descriptor that has ended, and has that serial.
fn has_ended_with(table: &Devices, id: u8, descriptor: u8, serial: u64) -> bool
    ensures { result ≡ has_ended_with descriptor serial (row_at table.now id) }
{
    let Some(row) = table.row(id) else {
        return false;
    };
    row.serial() == serial && (row.descriptor() == descriptor && row.has_ended())
}

/// The ended request of a descriptor that fulfils a wish: the very one, or of all the earliest.
#[tactic(auto, unfolding(device_model::specs::Devices::Requests::picked))]
pub(crate) fn picked(table: &Devices, descriptor: u8, wish: Wish) -> Option<u8>
    ensures { result ≡ picked table.now descriptor wish }
{
    match wish {
        Wish::Ending {
            request,
            serial,
            ..
        } => if has_ended_with(table, request, descriptor, serial) {
            Some(request)
        } else {
            None
        },
        Wish::AnyEnding => table.first_ended(descriptor),
        Wish::Nothing => None,
        Wish::Acceptance { .. } => None,
    }
}

/// Whether a wish is for any ending.
fn wants_any(wish: Wish) -> bool
    ensures { result ≡ wants_any wish }
{
    matches!(wish, Wish::AnyEnding)
}

/// Whether a wish is for the ending of the request with that ID.
fn wants(wish: Wish, id: u8) -> bool
    ensures { result ≡ wants id wish }
{
    match wish {
        Wish::Ending { request, .. } => request == id,
        Wish::AnyEnding => false,
        Wish::Nothing => false,
        Wish::Acceptance { .. } => false,
    }
}

/// Whether a wish is for an acceptance of a request of a descriptor, for whose ending the task will stay.
fn will_stay(wish: Wish, descriptor: u8) -> bool
    ensures { result ≡ will_stay descriptor wish }
{
    match wish {
        Wish::Acceptance { transfer, stays } => stays && transfer.descriptor == descriptor,
        Wish::Ending { .. } => false,
        Wish::AnyEnding => false,
        Wish::Nothing => false,
    }
}

/// Whether a wish is for an acceptance of a request of a descriptor.
fn is_of(wish: Wish, descriptor: u8) -> bool
    ensures { result ≡ wish_is_of descriptor wish }
{
    match wish {
        Wish::Acceptance { transfer, .. } => transfer.descriptor == descriptor,
        Wish::Ending { .. } => false,
        Wish::AnyEnding => false,
        Wish::Nothing => false,
    }
}

/// Whether a task is one that is looked for.
fn is_sought(table: &Devices, sought: Sought, task: u8) -> bool
    ensures { result ≡ is_sought table.now sought task }
{
    let wish = table.wish(task);
    match sought {
        Sought::AnyEnding => wants_any(wish),
        Sought::EndingOf(id) => wants(wish, id),
        Sought::Staying(descriptor) => will_stay(wish, descriptor),
        Sought::Asking(descriptor) => is_of(wish, descriptor),
        Sought::Fulfilled(descriptor) => picked(table, descriptor, wish).is_some(),
    }
}

/// The first waiter of an object that is looked for.
pub(crate) fn find_waiter(base: &Base, table: &Devices, object: u32, sought: Sought) -> Option<u8>
    requires low { 576 ≤ object }
    requires high { object ≤ 648 }
    requires queued { AreQueued base.now }
    ensures { result ≡ find (is_sought table.now sought) (fifo_queue base.now object) }
{
    let count = base.waiter_count(Order::Fifo, object);
    'waiters: for place in 0..count {
        let task = base.waiter(Order::Fifo, object, place)?;
        if is_sought(table, sought, task) {
            return Some(task);
        }
    }
    None
}

/// Whether any waiter of an object is looked for.
#[tactic(auto, using(crate::proofs::Sought::any_found))]
pub(crate) fn any_waiter(base: &Base, table: &Devices, object: u32, sought: Sought) -> bool
    requires low { 576 ≤ object }
    requires high { object ≤ 648 }
    requires queued { AreQueued base.now }
    ensures { result ≡ list_any (is_sought table.now sought) (fifo_queue base.now object) }
{
    find_waiter(base, table, object, sought).is_some()
}

/// The first waiter of an object, in the order in which they began to wait.
pub(crate) fn first_waiter(base: &Base, object: u32) -> Option<u8>
    requires low { 576 ≤ object }
    requires high { object ≤ 648 }
    requires queued { AreQueued base.now }
    ensures { result ≡ slice_get (fifo_queue base.now object) 0 }
{
    base.waiter(Order::Fifo, object, 0)
}

/// Whether anybody waits for an object.
pub(crate) fn somebody_waits(base: &Base, object: u32) -> bool
    requires low { 576 ≤ object }
    requires high { object ≤ 648 }
    requires queued { AreQueued base.now }
    ensures { result ≡ is_any_task (fifo_queue base.now object) }
{
    first_waiter(base, object).is_some()
}
