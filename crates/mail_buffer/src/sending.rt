//! Tasks send to message buffers.

ghost use Rattle.std.specs.Prelude.{◌≡◌, ◌≤◌, ◌<◌, ◌^◌, ◌+◌, IfOk, OnErr, Some, false, true, unwrap_or};
ghost use Rattle.std.specs.Option.{is_some};
ghost use Rattle.kernel_model.specs.Bodies.Statements.{memory_size};
ghost use Rattle.kernel_model.specs.SemFlags.Calls.{would_be_first};
ghost use Rattle.kernel_model.specs.Tasks.Base.{queue};
ghost use Rattle.kernel_model.specs.Tasks.Queues.{AreOfOrder};
ghost use Rattle.object_model.specs.Mails.Buffers.{delivered, first_of, receivers, sent_at_once, takes_length};
ghost use Rattle.object_model.specs.Mails.Bytes.{bytes_at};
ghost use Rattle.object_model.specs.Mails.Calls.{asked_to_send, is_inside, send_buffer, sent_to_buffer, waits_or_ends};
ghost use Rattle.object_model.specs.Mails.Tables.{MessageBuffer, buffer_at, place_of, senders_object};
ghost use Rattle.mail_buffer.specs.Parts.{AreQueued, HaveAsked, left_with, parts_of};

use crate::attributes::object_id;
use crate::buffer_serving::{FIRST_RECEIVERS, FIRST_SENDERS};
use crate::table::Mails;
use kernel_base::answers::{caller, done, failed, plain};
use kernel_base::{Base, Order};
use kernel_model::marks::Mark;
use std::alloc::AllocError;
use task_machine::{Memory, bytes, move_bytes, size};
use tk_types::{Er, Outcome, Who};

/// Whether a task that joined the queue of an object would stand first.
fn would_be_first(base: &Base, order: Order, task: u8, obj: u32) -> bool
    requires object { obj < 1024 }
    requires order { AreOfOrder order base.now obj }
    ensures { result ≡ would_be_first order base.now task (queue order base.now obj) }
{
    match base.waiter(order, obj, 0) {
        None => true,
        Some(first) => match order {
            Order::Fifo => false,
            Order::Priority => base.current(task) < base.current(first),
        },
    }
}

/// Whether a run of so many bytes from an address on lies inside the script's memory.
fn is_inside(memory: &Memory, address: i32, length: i32) -> bool
    ensures { result ≡ is_inside address length }
{
    address >= 0 && length >= 0 && address as u32 + length as u32 <= size(memory)
}

/// A waiting receiver takes bytes of the script's memory as its message, and its wait ends.
fn hand_over(
    base: &mut Base,
    table: &Mails,
    memory: &mut Memory,
    receiver: u8,
    address: u32,
    length: u32,
)
    requires source { address + length ≤ memory_size }
    requires place { place_of table.now receiver + length ≤ memory_size }
    ensures { parts_of base.new table.now memory.new ≡ delivered (parts_of base.old table.now memory.old) receiver (bytes_at memory.old address length) }
{
    move_bytes(memory, address, table.place_of(receiver), length);
    base.release(receiver, plain(length as i32));
}

/// A message of a task that would stand first among the senders goes to the first receiver, unless an older one lies there
/// for it, or where nobody receives it goes in, if it fits. False, with nothing changed, comes where it can't.
fn send_at_once(
    base: &mut Base,
    table: &mut Mails,
    memory: &mut Memory,
    id: u8,
    address: u32,
    length: u32,
) -> bool
    requires low { 1 ≤ id }
    requires high { id ≤ 64 }
    requires source { address + length ≤ memory_size }
    requires fits { (k : MessageBuffer) → buffer_at table.old id ≡ Some k → takes_length length k ≡ true }
    requires queued { AreQueued base.old table.old }
    requires asked { HaveAsked base.old table.old }
    ensures sent { (k : MessageBuffer) → buffer_at table.old id ≡ Some k → result ≡ is_some (sent_at_once (parts_of base.old table.old memory.old) id k true (first_of (receivers base.old id)) k.messages (bytes_at memory.old address length)) }
    ensures left { (k : MessageBuffer) → buffer_at table.old id ≡ Some k → parts_of base.new table.new memory.new ≡ unwrap_or (sent_at_once (parts_of base.old table.old memory.old) id k true (first_of (receivers base.old id)) k.messages (bytes_at memory.old address length)) (parts_of base.old table.old memory.old) }
    ensures kept { result ≡ false → (base.new ≡ base.old) × ((table.new ≡ table.old) × (memory.new ≡ memory.old)) }
{
    let Some(row) = table.buffer(id) else {
        return false;
    };
    if let Some(receiver) = base.waiter(Order::Fifo, FIRST_RECEIVERS - 1 + id as u32, 0) {
        if !row.is_empty() {
            return false;
        }
        hand_over(base, table, memory, receiver, address, length);
        return true;
    }
    let sent = bytes(memory, address, length);
    if !row.has_space(sent.len()) {
        return false;
    }
    table.store(id, sent);
    true
}

/// With a time-out of 0 the send is refused; else the task waits with its bytes, as they stand in memory now. An error says
/// that there was no memory for them, and that nothing changed.
fn wait_to_send(
    base: &mut Base,
    table: &mut Mails,
    memory: &Memory,
    task: u8,
    id: u8,
    order: Order,
    address: u32,
    length: u32,
    timeout: i32,
) -> Result<Outcome, AllocError>
    requires few { base.old.made < 2 ^ 63 }
    requires early { base.old.time < 2 ^ 63 }
    requires high { id ≤ 64 }
    requires source { address + length ≤ memory_size }
    requires order { AreOfOrder order base.old (senders_object id) }
    ensures ok { IfOk result (λ outcome. waits_or_ends (parts_of base.old table.old memory.now) task (senders_object id) order timeout (asked_to_send table.old task (bytes_at memory.now address length)) ≡ left_with base.new table.new memory.now outcome) }
    ensures err { OnErr result ((base.new ≡ base.old) × (table.new ≡ table.old)) }
{
    if timeout == 0 {
        return Ok(failed(Er::TmOut));
    }
    let sent = Vec::from_slice(table.alloc(), bytes(memory, address, length))?;
    table.ask_to_send(task, sent);
    base.make_wait(task, FIRST_SENDERS - 1 + id as u32, order, timeout);
    Ok(Outcome::Blocked)
}

/// A message whose checks hold goes at once, or its task waits with it.
fn send_or_wait(
    base: &mut Base,
    table: &mut Mails,
    memory: &mut Memory,
    task: u8,
    id: u8,
    address: u32,
    length: u32,
    timeout: i32,
) -> Result<Outcome, AllocError>
    requires few { base.old.made < 2 ^ 63 }
    requires early { base.old.time < 2 ^ 63 }
    requires low { 1 ≤ id }
    requires high { id ≤ 64 }
    requires source { address + length ≤ memory_size }
    requires fits { (k : MessageBuffer) → buffer_at table.old id ≡ Some k → takes_length length k ≡ true }
    requires queued { AreQueued base.old table.old }
    requires asked { HaveAsked base.old table.old }
    ensures ok { IfOk result (λ outcome. sent_to_buffer (parts_of base.old table.old memory.old) task id (bytes_at memory.old address length) timeout (buffer_at table.old id) ≡ left_with base.new table.new memory.new outcome) }
    ensures err { OnErr result ((base.new ≡ base.old) × ((table.new ≡ table.old) × (memory.new ≡ memory.old))) }
{
    let Some(row) = table.buffer(id) else {
        return Ok(failed(Er::NoExs));
    };
    let order = row.order();
    if !would_be_first(base, order, task, FIRST_SENDERS - 1 + id as u32) {
        return wait_to_send(
            base, table, memory, task, id, order, address, length, timeout,
        );
    }
    if send_at_once(base, table, memory, id, address, length) {
        return Ok(done(0));
    }
    wait_to_send(
        base, table, memory, task, id, order, address, length, timeout,
    )
}

/// `tk_snd_mbf`: sends bytes, as they stand in memory at the call, or waits. An error says that there was no memory for the
/// bytes of a task that waits, and that nothing changed.
#[tactic(auto, unfolding(object_model::specs::Mails::Calls::send_buffer))]
pub(crate) fn send_buffer(
    base: &mut Base,
    table: &mut Mails,
    memory: &mut Memory,
    who: Who,
    id: i32,
    address: i32,
    length: i32,
    timeout: i32,
) -> Result<Outcome, AllocError>
    requires few { base.old.made < 2 ^ 63 }
    requires early { base.old.time < 2 ^ 63 }
    requires queued { AreQueued base.old table.old }
    requires asked { HaveAsked base.old table.old }
    ensures ok { IfOk result (λ outcome. send_buffer (parts_of base.old table.old memory.old) who id address length timeout ≡ left_with base.new table.new memory.new outcome) }
    ensures err { OnErr result ((base.new ≡ base.old) × ((table.new ≡ table.old) × (memory.new ≡ memory.old))) }
{
    let Some(id) = object_id(id) else {
        return Ok(failed(Er::Id));
    };
    if !is_inside(memory, address, length) {
        return Ok(failed(Er::Par));
    }
    if timeout < -1 {
        return Ok(failed(Er::Par));
    }
    if !base.allows(who, Mark::MayWait) {
        return Ok(failed(Er::Ctx));
    }
    let Some(row) = table.buffer(id) else {
        return Ok(failed(Er::NoExs));
    };
    if !row.takes_length(length as usize) {
        return Ok(failed(Er::Par));
    }
    send_or_wait(
        base,
        table,
        memory,
        caller(who),
        id,
        address as u32,
        length as u32,
        timeout,
    )
}
