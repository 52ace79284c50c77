//! Endings are waited for, and claimed.

ghost use Rattle.std.specs.Prelude.{◌≡◌, ◌≤◌, ◌<◌, ◌^◌, IfErr, IfOk, List, None, Some, ℕ, true};
ghost use Rattle.kernel_model.specs.Words.Checks.{first_error, natural};
ghost use Rattle.object_model.specs.Mails.Tables.{Mails};
ghost use Rattle.device_model.specs.Devices.Calls.{device_of, ending_wish, is_open, names_request, serial_in, wait_ending, waited};
ghost use Rattle.device_model.specs.Devices.Servings.{is_of_descriptor};
ghost use Rattle.device_model.specs.Devices.Tables.{row_at};
ghost use Rattle.dev_layer.specs.Accepting.{if_obj, wait_access, wait_numbers, wait_others};
ghost use Rattle.dev_layer.specs.Parts.{AreQueued, left_with, parts_of};
ghost use Rattle.dev_layer.specs.Tables.{IsWish};

use crate::requesting::{claim, descriptor_of, open_for_calls, wait_or_end};
use crate::table::Devices;
use crate::waiters::{
    Sought, acceptance_object, any_waiter, ending_object, picked, somebody_waits,
};
use device_model::rows::Wish;
use kernel_base::Base;
use kernel_base::answers::{caller, failed};
use kernel_model::marks::Mark;
use tk_types::{Er, Outcome, Who};

/// A descriptor, and a request of it, or 0 for any.
#[derive(Clone, Copy)]
struct Named {
    descriptor: u8,
    request: u8,
}

/// What a call names, or the first error of the checks of its numbers.
fn checked_numbers(descriptor: i32, request: i32, timeout: i32) -> Result<Named, Er>
    ensures ok { IfOk result (λ named. first_error (wait_numbers descriptor request timeout) ≡ None) }
    ensures err { IfErr result (λ error. first_error (wait_numbers descriptor request timeout) ≡ Some error) }
    ensures descriptor { IfOk result (λ named. named.descriptor ≡ natural descriptor) }
    ensures request { IfOk result (λ named. named.request ≡ natural request) }
    ensures low { IfOk result (λ named. 1 ≤ named.descriptor) }
    ensures high { IfOk result (λ named. named.descriptor ≤ 32) }
{
    let Some(descriptor) = descriptor_of(descriptor) else {
        return Err(Er::Id);
    };
    if request < 0 || request > 64 {
        return Err(Er::Id);
    }
    if timeout < -1 {
        return Err(Er::Par);
    }
    Ok(Named {
        descriptor,
        request: request as u8,
    })
}

/// Whether a number names a request of a descriptor; 0 names any.
fn names_request(table: &Devices, descriptor: u8, request: u8) -> bool
    ensures { result ≡ names_request table.now descriptor request }
{
    if request == 0 {
        return true;
    }
    match table.row(request) {
        None => false,
        Some(row) => row.descriptor() == descriptor,
    }
}

/// The device of a descriptor whose request a caller may wait for, or the first error of the checks of that.
fn checked_access(
    base: &Base,
    table: &Devices,
    who: Who,
    descriptor: u8,
    request: u8,
) -> Result<u8, Er>
    requires { descriptor ≤ 32 }
    ensures ok { IfOk result (λ device. first_error (wait_access base.now table.now who descriptor request) ≡ None) }
    ensures err { IfErr result (λ error. first_error (wait_access base.now table.now who descriptor request) ≡ Some error) }
    ensures device { IfOk result (λ device. device ≡ device_of table.now descriptor) }
    ensures low { IfOk result (λ device. 1 ≤ device) }
    ensures high { IfOk result (λ device. device ≤ 8) }
{
    if !base.allows(who, Mark::MayWait) {
        return Err(Er::Ctx);
    }
    let Some(opened) = open_for_calls(table, descriptor) else {
        return Err(Er::Id);
    };
    if !names_request(table, descriptor, request) {
        return Err(Er::Id);
    }
    if request == 0 && !table.has_request(descriptor) {
        return Err(Er::NoExs);
    }
    Ok(opened.device)
}

/// Whether others wait in a way that leaves no room for one more: for the same request, for any of the descriptor, or, where
/// any is asked for, at all.
fn others_wait(base: &Base, table: &Devices, descriptor: u8, device: u8, request: u8) -> bool
    requires low { 1 ≤ device }
    requires high { device ≤ 8 }
    requires small { descriptor ≤ 32 }
    requires device { device ≡ device_of table.now descriptor }
    requires queued { AreQueued base.now }
    ensures { (mails : Mails) → (memory : List ℕ) → first_error (wait_others (parts_of base.now table.now mails memory) descriptor request) ≡ if_obj result }
{
    let object = ending_object(descriptor);
    if any_waiter(base, table, object, Sought::EndingOf(request)) {
        return true;
    }
    if any_waiter(base, table, object, Sought::AnyEnding) {
        return true;
    }
    if request != 0 {
        return false;
    }
    if somebody_waits(base, object) {
        return true;
    }
    any_waiter(
        base,
        table,
        acceptance_object(device),
        Sought::Staying(descriptor),
    )
}

/// What a task asks for by the ID of a request; 0 is the earliest ending of any.
fn ending_wish(table: &Devices, request: u8) -> Wish
    ensures { result ≡ ending_wish table.now request }
{
    if request == 0 {
        return Wish::AnyEnding;
    }
    let serial = match table.row(request) {
        None => 0,
        Some(row) => row.serial(),
    };
    Wish::Ending {
        request,
        serial,
        own: false,
    }
}

/// An ending that there is is claimed at once; else the task waits for it.
fn claim_or_wait(
    base: &mut Base,
    table: &mut Devices,
    task: u8,
    descriptor: u8,
    timeout: i32,
    wish: Wish,
) -> Outcome
    requires few { base.old.made < 2 ^ 63 }
    requires early { base.old.time < 2 ^ 63 }
    requires small { descriptor ≤ 32 }
    requires wish { IsWish wish }
    requires queued { AreQueued base.old }
    ensures { (mails : Mails) → (memory : List ℕ) → waited (parts_of base.old table.old mails memory) task descriptor timeout wish ≡ left_with (parts_of base.new table.new mails memory) result }
{
    if let Some(id) = picked(table, descriptor, wish) {
        return claim(table, false, id);
    }
    wait_or_end(base, table, task, ending_object(descriptor), timeout, wish)
}

/// `tk_wai_dev`: claims the ending of a request, or waits for it.
#[tactic(auto, unfolding(device_model::specs::Devices::Calls::wait_ending))]
pub(crate) fn wait_ending(
    base: &mut Base,
    table: &mut Devices,
    who: Who,
    descriptor: i32,
    request: i32,
    timeout: i32,
) -> Outcome
    requires few { base.old.made < 2 ^ 63 }
    requires early { base.old.time < 2 ^ 63 }
    requires queued { AreQueued base.old }
    ensures { (mails : Mails) → (memory : List ℕ) → wait_ending (parts_of base.old table.old mails memory) who descriptor request timeout ≡ left_with (parts_of base.new table.new mails memory) result }
{
    let named = match checked_numbers(descriptor, request, timeout) {
        Err(error) => return failed(error),
        Ok(named) => named,
    };
    let device = match checked_access(base, table, who, named.descriptor, named.request) {
        Err(error) => return failed(error),
        Ok(device) => device,
    };
    if others_wait(base, table, named.descriptor, device, named.request) {
        return failed(Er::Obj);
    }
    let wish = ending_wish(table, named.request);
    claim_or_wait(base, table, caller(who), named.descriptor, timeout, wish)
}
