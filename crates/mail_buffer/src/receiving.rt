//! Tasks receive from message buffers.

ghost use Rattle.std.specs.Prelude.{◌≡◌, ◌≤◌, ◌<◌, ◌^◌, ◌&&◌, ℕ, List, Some, int_le, pos, true};
ghost use Rattle.kernel_model.specs.Bodies.Statements.{memory_size};
ghost use Rattle.kernel_model.specs.Words.Checks.{within};
ghost use Rattle.object_model.specs.Mails.Calls.{asked_into, has_place, receive_buffer, received_from_buffer, waits_or_ends};
ghost use Rattle.object_model.specs.Mails.Tables.{MessageBuffer, buffer_at, receivers_object};
ghost use Rattle.kernel_model.specs.Tasks.Queues.{AreOfOrder};
ghost use Rattle.tk_types.specs.declared.task.Order.TheVariants.{Fifo};
ghost use Rattle.mail_buffer.specs.Parts.{AreQueued, HaveAsked, left_with, parts_of};

use crate::attributes::object_id;
use crate::buffer_serving::{FIRST_RECEIVERS, FIRST_SENDERS};
use crate::table::Mails;
use kernel_base::answers::{caller, done, failed, plain};
use kernel_base::{Base, Order};
use kernel_model::marks::Mark;
use task_machine::{Memory, size, write_bytes};
use tk_types::{Er, Outcome, Who};

/// Whether a number is an address of the script's memory, or the end of it.
fn is_address(memory: &Memory, address: i32) -> bool
    ensures { result ≡ within 0 memory_size address }
{
    address >= 0 && address as u32 <= size(memory)
}

/// With a time-out of 0 the receive is refused; else the task waits for a message that goes to its address.
fn wait_to_receive(
    base: &mut Base,
    table: &mut Mails,
    task: u8,
    id: u8,
    address: u32,
    timeout: i32,
) -> Outcome
    requires few { base.old.made < 2 ^ 63 }
    requires early { base.old.time < 2 ^ 63 }
    requires high { id ≤ 64 }
    requires order { AreOfOrder Fifo base.old (receivers_object id) }
    ensures { (memory : List ℕ) → waits_or_ends (parts_of base.old table.old memory) task (receivers_object id) Fifo timeout (asked_into table.old task address) ≡ left_with base.new table.new memory result }
{
    if timeout == 0 {
        return failed(Er::TmOut);
    }
    table.ask_into(task, address);
    base.make_wait(task, FIRST_RECEIVERS - 1 + id as u32, Order::Fifo, timeout);
    Outcome::Blocked
}

/// A caller whose checks hold takes the oldest message, or the first sender's, whose wait ends; where somebody receives
/// already, or nothing is there, it waits.
fn receive_or_wait(
    base: &mut Base,
    table: &mut Mails,
    memory: &mut Memory,
    task: u8,
    id: u8,
    address: u32,
    timeout: i32,
) -> Outcome
    requires few { base.old.made < 2 ^ 63 }
    requires early { base.old.time < 2 ^ 63 }
    requires low { 1 ≤ id }
    requires high { id ≤ 64 }
    requires place { (k : MessageBuffer) → buffer_at table.old id ≡ Some k → has_place address k ≡ true }
    requires queued { AreQueued base.old table.old }
    requires asked { HaveAsked base.old table.old }
    ensures { received_from_buffer (parts_of base.old table.old memory.old) task id address timeout (buffer_at table.old id) ≡ left_with base.new table.new memory.new result }
{
    let Some(row) = table.buffer(id) else {
        return failed(Er::NoExs);
    };
    if base
        .waiter(Order::Fifo, FIRST_RECEIVERS - 1 + id as u32, 0)
        .is_some()
    {
        return wait_to_receive(base, table, task, id, address, timeout);
    }
    if !row.is_empty() {
        let length = table.take_into(id, memory, address);
        return done(length as i32);
    }
    let Some(sender) = base.waiter(row.order(), FIRST_SENDERS - 1 + id as u32, 0) else {
        return wait_to_receive(base, table, task, id, address, timeout);
    };
    let sent = table.bytes_of(sender);
    write_bytes(memory, address, sent);
    base.release(sender, plain(0));
    done(sent.len() as i32)
}

/// `tk_rcv_mbf`: answers the length of the message that it puts into memory, or waits.
#[tactic(auto, unfolding(object_model::specs::Mails::Calls::receive_buffer))]
pub(crate) fn receive_buffer(
    base: &mut Base,
    table: &mut Mails,
    memory: &mut Memory,
    who: Who,
    id: i32,
    address: i32,
    timeout: i32,
) -> Outcome
    requires few { base.old.made < 2 ^ 63 }
    requires early { base.old.time < 2 ^ 63 }
    requires queued { AreQueued base.old table.old }
    requires asked { HaveAsked base.old table.old }
    ensures { receive_buffer (parts_of base.old table.old memory.old) who id address timeout ≡ left_with base.new table.new memory.new result }
{
    let Some(id) = object_id(id) else {
        return failed(Er::Id);
    };
    if !is_address(memory, address) {
        return failed(Er::Par);
    }
    if timeout < -1 {
        return failed(Er::Par);
    }
    if !base.allows(who, Mark::MayWait) {
        return failed(Er::Ctx);
    }
    let Some(row) = table.buffer(id) else {
        return failed(Er::NoExs);
    };
    if address as u32 + row.most() as u32 > size(memory) {
        return failed(Er::Par);
    }
    receive_or_wait(
        base,
        table,
        memory,
        caller(who),
        id,
        address as u32,
        timeout,
    )
}
