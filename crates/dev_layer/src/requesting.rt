//! Requests are made.

ghost use Rattle.std.specs.Prelude.{◌≡◌, ◌≤◌, ◌<◌, ◌^◌, ◌&&◌, ◌∷◌, IfErr, IfOk, IfSome, None, if◌then◌else◌, OnErr, Some, List, ℕ, [], not, true};
ghost use Rattle.std.specs.Option.{is_some};
ghost use Rattle.kernel_model.specs.Tasks.Base.{Base as BaseView};
ghost use Rattle.kernel_model.specs.Words.Checks.{first_error, natural, within};
ghost use Rattle.object_model.specs.Mails.Calls.{is_inside};
ghost use Rattle.object_model.specs.Mails.Tables.{Mails as MailsView};
ghost use Rattle.device_model.specs.Devices.Calls.{claim, device_of, is_open, permits_in, request, request_whole, requested, stayed, stays, start_of, transfer_of, waits_or_ends};
ghost use Rattle.device_model.specs.Devices.Tables.{free_request, opened_at, with_wish};
ghost use Rattle.dev_layer.specs.Accepting.{access_checks, number_checks};
ghost use Rattle.dev_layer.specs.Parts.{AreQueued, left_with, parts_of};
ghost use Rattle.device_model.specs.Devices.Requests.{claimed};
ghost use Rattle.dev_layer.specs.Tables.{IsInside, IsWish};

use crate::accepting::accept;
use crate::opening::{reads, writes};
use crate::table::Devices;
use crate::waiters::{Sought, acceptance_object, any_waiter, ending_object};
use device_model::rows::{Opened, Transfer, Wish};
use kernel_base::answers::{caller, done, failed, plain};
use kernel_base::{Base, Order};
use kernel_model::marks::Mark;
use mail_buffer::Mails;
use std::alloc::AllocError;
use task_machine::{Memory, size};
use tk_types::{Answer, Er, Outcome, Who};

/// What a request asks for, as numbers.
#[derive(Clone, Copy)]
pub(crate) struct Wanted {
    pub(crate) descriptor: i32,
    pub(crate) write: bool,
    pub(crate) start: i32,
    pub(crate) address: i32,
    pub(crate) size: i32,
}

/// The descriptor that a number from 1 to 32 names.
pub(crate) fn descriptor_of(number: i32) -> Option<u8>
    ensures known { result ≡ (if within 1 32 number then Some (natural number) else None) }
    ensures low { IfSome result (λ descriptor. 1 ≤ descriptor) }
    ensures high { IfSome result (λ descriptor. descriptor ≤ 32) }
{
    if number < 1 || number > 32 {
        return None;
    }
    Some(number as u8)
}

/// Whether a run of so many bytes from an address on lies inside the script's memory.
fn is_inside(memory: &Memory, address: i32, length: i32) -> bool
    ensures { result ≡ is_inside address length }
{
    address >= 0 && length >= 0 && address as u32 + length as u32 <= size(memory)
}

/// The descriptor with that number, where it is open for calls.
pub(crate) fn open_for_calls(table: &Devices, descriptor: u8) -> Option<Opened>
    requires { descriptor ≤ 32 }
    ensures open { is_some result ≡ is_open table.now descriptor }
    ensures opened { IfSome result (λ opened. opened_at table.now descriptor ≡ Some opened) }
    ensures low { IfSome result (λ opened. 1 ≤ opened.device) }
    ensures high { IfSome result (λ opened. opened.device ≤ 8) }
{
    let opened = table.opened(descriptor)?;
    if opened.closing { None } else { Some(opened) }
}

/// Whether a descriptor that is opened so may be read from, or written to.
fn permits(opened: Opened, write: bool) -> bool
    ensures { result ≡ permits_in write (Some opened) }
{
    if write {
        writes(opened.mode)
    } else {
        reads(opened.mode)
    }
}

/// Where a transfer starts; -1 is the event buffer.
fn start_of(start: i32) -> Option<u32>
    ensures { result ≡ start_of start }
{
    if start < 0 {
        return None;
    }
    Some(start as u32)
}

/// What a request asks for, or the first error of the checks of its numbers.
fn checked_numbers(memory: &Memory, wanted: &Wanted, timeout: i32) -> Result<Transfer, Er>
    ensures ok { IfOk result (λ transfer. first_error (number_checks wanted.now timeout) ≡ None) }
    ensures err { IfErr result (λ error. first_error (number_checks wanted.now timeout) ≡ Some error) }
    ensures transfer { IfOk result (λ transfer. transfer ≡ transfer_of wanted.now.descriptor wanted.now.write wanted.now.start wanted.now.address wanted.now.size) }
    ensures low { IfOk result (λ transfer. 1 ≤ transfer.descriptor) }
    ensures inside { IfOk result (λ transfer. IsInside transfer) }
{
    let Some(descriptor) = descriptor_of(wanted.descriptor) else {
        return Err(Er::Id);
    };
    if wanted.start < -1 {
        return Err(Er::Par);
    }
    if !is_inside(memory, wanted.address, wanted.size) {
        return Err(Er::Par);
    }
    if timeout < -1 {
        return Err(Er::Par);
    }
    Ok(Transfer {
        descriptor,
        write: wanted.write,
        start: start_of(wanted.start),
        address: wanted.address as u32,
        size: wanted.size as u32,
    })
}

/// The device of a descriptor that a caller may use so, or the first error of the checks of that.
fn checked_access(
    base: &Base,
    table: &Devices,
    who: Who,
    descriptor: u8,
    write: bool,
) -> Result<u8, Er>
    requires { descriptor ≤ 32 }
    ensures ok { IfOk result (λ device. first_error (access_checks base.now table.now who descriptor write) ≡ None) }
    ensures err { IfErr result (λ error. first_error (access_checks base.now table.now who descriptor write) ≡ Some error) }
    ensures device { IfOk result (λ device. device ≡ device_of table.now descriptor) }
    ensures low { IfOk result (λ device. 1 ≤ device) }
    ensures high { IfOk result (λ device. device ≤ 8) }
{
    if !base.allows(who, Mark::MayWait) {
        return Err(Er::Ctx);
    }
    let Some(opened) = open_for_calls(table, descriptor) else {
        return Err(Er::Id);
    };
    if !permits(opened, write) {
        return Err(Er::OaCv);
    }
    Ok(opened.device)
}

/// A request is let go, and its ending answered.
pub(crate) fn claim(table: &mut Devices, own: bool, id: u8) -> Outcome
    ensures { (b : BaseView) → (mails : MailsView) → (memory : List ℕ) → claim (parts_of b table.old mails memory) own id ≡ left_with (parts_of b table.new mails memory) result }
{
    let answer = claimed(table, own, id);
    table.drop_request(id);
    Outcome::Returned(answer)
}

/// The answer by which the ending of a request is claimed.
pub(crate) fn claimed(table: &Devices, own: bool, id: u8) -> Answer
    ensures { result ≡ claimed table.now own id }
{
    match table.row(id) {
        None => plain(0),
        Some(row) => row.claimed(own, id),
    }
}

/// A call that may ask with a time-out of 0 ends at once then, and nothing has happened; else its task waits, with what it
/// asked for.
pub(crate) fn wait_or_end(
    base: &mut Base,
    table: &mut Devices,
    task: u8,
    object: u32,
    timeout: i32,
    wish: Wish,
) -> Outcome
    requires few { base.old.made < 2 ^ 63 }
    requires early { base.old.time < 2 ^ 63 }
    requires low { 576 ≤ object }
    requires high { object ≤ 648 }
    requires queued { AreQueued base.old }
    requires wish { IsWish wish }
    ensures { (mails : MailsView) → (memory : List ℕ) → waits_or_ends (parts_of base.old table.old mails memory) task object timeout (with_wish table.old task wish) ≡ left_with (parts_of base.new table.new mails memory) result }
{
    if timeout == 0 {
        return failed(Er::TmOut);
    }
    table.set_wish(task, wish);
    base.make_wait(task, object, Order::Fifo, timeout);
    Outcome::Blocked
}

/// A caller joins those that wait for an acceptance by a device, and stays for its ending.
fn stay(base: &mut Base, table: &mut Devices, task: u8, device: u8, transfer: Transfer) -> Outcome
    requires few { base.old.made < 2 ^ 63 }
    requires early { base.old.time < 2 ^ 63 }
    requires low { 1 ≤ device }
    requires high { device ≤ 8 }
    requires queued { AreQueued base.old }
    requires inside { IsInside transfer }
    ensures { (mails : MailsView) → (memory : List ℕ) → stays (parts_of base.old table.old mails memory) task device transfer ≡ left_with (parts_of base.new table.new mails memory) result }
{
    table.set_wish(
        task,
        Wish::Acceptance {
            transfer,
            stays: true,
        },
    );
    base.make_wait(task, acceptance_object(device), Order::Fifo, -1);
    Outcome::Blocked
}

/// A request whose checks hold is accepted at once where its device has a place; else the task waits for that.
fn accept_or_wait(
    base: &mut Base,
    table: &mut Devices,
    mails: &Mails,
    memory: &mut Memory,
    task: u8,
    device: u8,
    id: u8,
    transfer: Transfer,
    timeout: i32,
) -> Result<Outcome, AllocError>
    requires few { base.old.made < 2 ^ 63 }
    requires early { base.old.time < 2 ^ 63 }
    requires low { 1 ≤ device }
    requires high { device ≤ 8 }
    requires queued { AreQueued base.old }
    requires inside { IsInside transfer }
    requires within { id ≤ 64 }
    requires free { id ≡ free_request table.old }
    ensures ok { IfOk result (λ outcome. requested (parts_of base.old table.old mails.now memory.old) task device transfer timeout ≡ left_with (parts_of base.new table.new mails.now memory.new) outcome) }
    ensures err { OnErr result ((base.new ≡ base.old) × ((table.new ≡ table.old) × (memory.new ≡ memory.old))) }
{
    if table.has_place(device) {
        accept(table, mails, memory, device, id, transfer)?;
        return Ok(done(id as i32));
    }
    let wish = Wish::Acceptance {
        transfer,
        stays: false,
    };
    Ok(wait_or_end(base, table, task, acceptance_object(device), timeout, wish))
}

/// A request whose checks hold, for whose ending the caller stays: the caller waits for its acceptance. One for the event
/// buffer is accepted at once where its device has a place, and has ended then.
fn accept_or_stay(
    base: &mut Base,
    table: &mut Devices,
    mails: &Mails,
    memory: &mut Memory,
    task: u8,
    device: u8,
    id: u8,
    transfer: Transfer,
) -> Result<Outcome, AllocError>
    requires few { base.old.made < 2 ^ 63 }
    requires early { base.old.time < 2 ^ 63 }
    requires low { 1 ≤ device }
    requires high { device ≤ 8 }
    requires queued { AreQueued base.old }
    requires inside { IsInside transfer }
    requires within { id ≤ 64 }
    requires free { id ≡ free_request table.old }
    ensures ok { IfOk result (λ outcome. stayed (parts_of base.old table.old mails.now memory.old) task device transfer transfer.start ≡ left_with (parts_of base.new table.new mails.now memory.new) outcome) }
    ensures err { OnErr result ((base.new ≡ base.old) × ((table.new ≡ table.old) × (memory.new ≡ memory.old))) }
{
    if transfer.start.is_some() {
        return Ok(stay(base, table, task, device, transfer));
    }
    if !table.has_place(device) {
        return Ok(stay(base, table, task, device, transfer));
    }
    accept(table, mails, memory, device, id, transfer)?;
    Ok(claim(table, true, id))
}

/// `tk_rea_dev` and `tk_wri_dev`: answers the ID of a request, of which the ending is claimed later. An error says that
/// there was no memory for its bytes, and that nothing changed.
#[tactic(auto, unfolding(device_model::specs::Devices::Calls::request))]
pub(crate) fn request(
    base: &mut Base,
    table: &mut Devices,
    mails: &Mails,
    memory: &mut Memory,
    who: Who,
    wanted: &Wanted,
    timeout: i32,
) -> Result<Outcome, AllocError>
    requires few { base.old.made < 2 ^ 63 }
    requires early { base.old.time < 2 ^ 63 }
    requires queued { AreQueued base.old }
    ensures ok { IfOk result (λ outcome. request (parts_of base.old table.old mails.now memory.old) who wanted.now.write wanted.now.descriptor wanted.now.start wanted.now.address wanted.now.size timeout ≡ left_with (parts_of base.new table.new mails.now memory.new) outcome) }
    ensures err { OnErr result ((base.new ≡ base.old) × ((table.new ≡ table.old) × (memory.new ≡ memory.old))) }
{
    let transfer = match checked_numbers(memory, wanted, timeout) {
        Err(error) => return Ok(failed(error)),
        Ok(transfer) => transfer,
    };
    let device = match checked_access(base, table, who, transfer.descriptor, transfer.write) {
        Err(error) => return Ok(failed(error)),
        Ok(device) => device,
    };
    let id = table.free_request();
    if id == 0 {
        return Ok(failed(Er::Limit));
    }
    accept_or_wait(
        base,
        table,
        mails,
        memory,
        caller(who),
        device,
        id,
        transfer,
        timeout,
    )
}

/// `tk_srea_dev` and `tk_swri_dev`: a request, and the wait for its ending, which is claimed. It is refused while a task
/// waits for any ending of the descriptor. An error says that there was no memory for its bytes, and that nothing changed.
#[tactic(auto, unfolding(device_model::specs::Devices::Calls::request_whole))]
pub(crate) fn request_whole(
    base: &mut Base,
    table: &mut Devices,
    mails: &Mails,
    memory: &mut Memory,
    who: Who,
    wanted: &Wanted,
) -> Result<Outcome, AllocError>
    requires few { base.old.made < 2 ^ 63 }
    requires early { base.old.time < 2 ^ 63 }
    requires queued { AreQueued base.old }
    ensures ok { IfOk result (λ outcome. request_whole (parts_of base.old table.old mails.now memory.old) who wanted.now.write wanted.now.descriptor wanted.now.start wanted.now.address wanted.now.size ≡ left_with (parts_of base.new table.new mails.now memory.new) outcome) }
    ensures err { OnErr result ((base.new ≡ base.old) × ((table.new ≡ table.old) × (memory.new ≡ memory.old))) }
{
    let transfer = match checked_numbers(memory, wanted, -1) {
        Err(error) => return Ok(failed(error)),
        Ok(transfer) => transfer,
    };
    let device = match checked_access(base, table, who, transfer.descriptor, transfer.write) {
        Err(error) => return Ok(failed(error)),
        Ok(device) => device,
    };
    if any_waiter(
        base,
        table,
        ending_object(transfer.descriptor),
        Sought::AnyEnding,
    ) {
        return Ok(failed(Er::Obj));
    }
    let id = table.free_request();
    if id == 0 {
        return Ok(failed(Er::Limit));
    }
    accept_or_stay(
        base,
        table,
        mails,
        memory,
        caller(who),
        device,
        id,
        transfer,
    )
}
