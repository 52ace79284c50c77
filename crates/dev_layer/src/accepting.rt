//! Requests are accepted.

ghost use Rattle.std.specs.Prelude.{◌≡◌, ◌≤◌, ◌+◌, ◌<◌, ◌^◌, ◌∷◌, OnErr, OnOk, [], false, length, true};
ghost use Rattle.kernel_model.specs.Tasks.Base.{Base};
ghost use Rattle.device_model.specs.declared.rows.Life.TheVariants.{Ended};
ghost use Rattle.device_model.specs.Devices.Memory.{four_bytes, number_of, read_bytes, write_bytes};
ghost use Rattle.device_model.specs.Devices.Requests.{accept, accept_event, copied, row_of};
ghost use Rattle.device_model.specs.Devices.Tables.{accepted, buffer_of};
ghost use Rattle.dev_layer.specs.Accepting.{buffer_in};
ghost use Rattle.dev_layer.specs.Parts.{parts_of};
ghost use Rattle.dev_layer.specs.Tables.{IsInside};

use crate::arriving::land;
use crate::rows::Row;
use crate::table::Devices;
use device_model::rows::Transfer;
use mail_buffer::Mails;
use std::alloc::AllocError;
use task_machine::{Memory, bytes};
use tk_types::Er;

/// The ID of an event buffer is four bytes.
const BUFFER_SIZE: u32 = 4;

/// The bytes that a request writes; one that reads has none.
fn written_bytes(memory: &Memory, transfer: Transfer) -> &[u8]
    requires { IsInside transfer }
    ensures copied { result.now ≡ copied transfer memory.now }
    ensures full { transfer.write ≡ true → length result.now ≡ transfer.size }
    ensures empty { transfer.write ≡ false → result.now ≡ [] }
    ensures fits { length result.now ≤ transfer.size }
{
    if transfer.write {
        return bytes_at(memory, transfer.address, transfer.size);
    }
    bytes_at(memory, 0, 0)
}

/// A request has ended as it is accepted.
fn accept_ended(table: &mut Devices, device: u8, id: u8, transfer: Transfer, size: u32, error: Er)
    requires inside { IsInside transfer }
    requires within { id ≤ 64 }
    requires few { table.old.serial + 1 < 2 ^ 64 }
    requires short { size ≤ 65536 }
    ensures { table.new ≡ accepted table.old id (row_of device transfer [] (Ended size error)) }
{
    let row = Row::ended(table.alloc(), device, transfer, size, error);
    table.accept(id, row);
}

/// So many bytes of the memory from an address on.
fn bytes_at(memory: &Memory, address: u32, count: u32) -> &[u8]
    requires { address + count ≤ 65536 }
    ensures read { result.now ≡ read_bytes count address memory.now }
    ensures all { length result.now ≡ count }
{
    bytes(memory, address, count)
}

/// The number that four bytes stand for, the least first.
fn number_of(four: &[u8]) -> u32
    requires { length four.now ≡ 4 }
    ensures { result ≡ number_of four.now }
{
    let low = four[0] as u32 + 256 * four[1] as u32;
    let high = four[2] as u32 + 256 * four[3] as u32;
    low + 65_536 * high
}

/// The ID with that number, where there is such a message buffer; 0 stands for none, and there is always that.
fn named_buffer(mails: &Mails, number: u32) -> Option<u8>
    ensures { result ≡ buffer_in mails.now number }
{
    mails.known_of_buffers();
    if number == 0 {
        return Some(0);
    }
    if number > 64 {
        return None;
    }
    let id = number as u8;
    if mails.has_mbf(id) { Some(id) } else { None }
}

/// A request for the device's event buffer ends as it is accepted, without the driver.
fn accept_event(
    table: &mut Devices,
    mails: &Mails,
    memory: &mut Memory,
    device: u8,
    id: u8,
    transfer: Transfer,
)
    requires device { device ≤ 8 }
    requires inside { IsInside transfer }
    requires within { id ≤ 64 }
    requires few { table.old.serial + 1 < 2 ^ 64 }
    ensures { (b : Base) → accept_event (parts_of b table.old mails.now memory.old) device id transfer ≡ parts_of b table.new mails.now memory.new }
{
    if transfer.size == 0 {
        accept_ended(table, device, id, transfer, BUFFER_SIZE, Er::Ok);
        return;
    }
    if transfer.size != BUFFER_SIZE {
        accept_ended(table, device, id, transfer, 0, Er::Par);
        return;
    }
    if !transfer.write {
        let four = [table.buffer(device), 0, 0, 0];
        accept_ended(table, device, id, transfer, BUFFER_SIZE, Er::Ok);
        land(memory, transfer.address, &four);
        return;
    }
    let number = number_of(bytes_at(memory, transfer.address, BUFFER_SIZE));
    let Some(buffer) = named_buffer(mails, number) else {
        accept_ended(table, device, id, transfer, 0, Er::NoExs);
        return;
    };
    table.set_buffer(device, buffer);
    accept_ended(table, device, id, transfer, BUFFER_SIZE, Er::Ok);
}

/// A request is accepted by a device under an ID that is free; the bytes to write are copied. An error says that there was
/// no memory for them, or no serial for one more request, and that nothing changed.
#[tactic(auto, unfolding(device_model::specs::Devices::Requests::accept))]
pub(crate) fn accept(
    table: &mut Devices,
    mails: &Mails,
    memory: &mut Memory,
    device: u8,
    id: u8,
    transfer: Transfer,
) -> Result<(), AllocError>
    requires device { device ≤ 8 }
    requires inside { IsInside transfer }
    requires within { id ≤ 64 }
    ensures ok { OnOk result ((b : Base) → accept (parts_of b table.old mails.now memory.old) device id transfer ≡ parts_of b table.new mails.now memory.new) }
    ensures err { OnErr result ((table.new ≡ table.old) × (memory.new ≡ memory.old)) }
{
    if !table.has_serial() {
        return Err(AllocError);
    }
    if transfer.start.is_none() {
        accept_event(table, mails, memory, device, id, transfer);
        return Ok(());
    }
    let row = Row::waiting(
        table.alloc(),
        device,
        transfer,
        written_bytes(memory, transfer),
    )?;
    table.accept(id, row);
    Ok(())
}
