//! One request.

ghost use Rattle.std.specs.Prelude.{◌≡◌, ◌≤◌, ◌+◌, IfOk, [], false, length, true, unwrap_or};
ghost use Rattle.device_model.specs.declared.rows.Life.TheVariants.{AtDriver, Ended, Queued};
ghost use Rattle.device_model.specs.Devices.Requests.{claimed_life, row_of};
ghost use Rattle.device_model.specs.RoomyBytes.{bytes_within};
ghost use Rattle.device_model.specs.Units.Function.{IsWhole};
ghost use Rattle.device_model.specs.Devices.Tables.{has_ended, is_at_driver, is_queued, request_of};

use device_model::bytes::{Bytes, append};
use device_model::messages::Request;
use device_model::rows::{Life, Transfer};
use kernel_base::answers::plain;
use std::alloc::{AllocError, Global};
use std::marker::Model;
use tk_types::{Answer, Er};

/// A request. Until it is handed over it has two places for all of its bytes: one for the driver, and one for the kernel's own
/// copy. Those of a write stand in both. So handing over needs no memory for them.
#[derive(Drop)]
pub(crate) struct Row {
    serial: u64,
    descriptor: u8,
    device: u8,
    write: bool,
    start: u32,
    size: u32,
    address: u32,
    bytes: Bytes,
    copy: Bytes,
    life: Life,
}

impl Model for Row {
    ghost use Rattle.device_model.specs.Devices.Tables.{Row as RowView};
    ghost use Rattle.dev_layer.specs.Requests.{IsRow};

    ghost Value = { RowView };

    ghost view = { λ r. record { serial = r.serial; descriptor = r.descriptor; device = r.device; write = r.write; start = r.start; size = r.size; address = r.address; bytes = r.bytes.items; life = r.life } };

    ghost invariant = { λ r. IsRow r.descriptor r.address r.size r.write r.bytes r.copy r.life };
}

/// What a driver gets: the request, and the place of its bytes once more for the message.
#[derive(Drop)]
pub(crate) struct Handed {
    pub(crate) request: Request,
    pub(crate) copy: Bytes,
}

/// The start of a transfer; 0 stands for the event buffer.
fn start_of(transfer: Transfer) -> u32
    ensures { result ≡ unwrap_or transfer.start 0 }
{
    transfer.start.unwrap_or(0)
}

impl Row {
    /// A request that waits for its device's driver, with the bytes that it writes, or with room for those that it reads.
    pub(crate) fn waiting(
        alloc: Global,
        device: u8,
        transfer: Transfer,
        bytes: &[u8],
    ) -> Result<Row, AllocError>
        requires descriptor { transfer.descriptor ≤ 32 }
        requires inside { transfer.address + transfer.size ≤ 65536 }
        requires full { transfer.write ≡ true → length bytes.now ≡ transfer.size }
        requires empty { transfer.write ≡ false → bytes.now ≡ [] }
        requires fits { length bytes.now ≤ transfer.size }
        ensures { IfOk result (λ row. row ≡ row_of device transfer bytes.now Queued) }
    {
        Ok(Row {
            serial: 0,
            descriptor: transfer.descriptor,
            device,
            write: transfer.write,
            start: start_of(transfer),
            size: transfer.size,
            address: transfer.address,
            bytes: bytes_within(alloc, transfer.size as usize, bytes)?,
            copy: bytes_within(alloc, transfer.size as usize, bytes)?,
            life: Life::Queued,
        })
    }

    /// A request that has ended as it is accepted.
    pub(crate) fn ended(alloc: Global, device: u8, transfer: Transfer, size: u32, error: Er) -> Row
        requires descriptor { transfer.descriptor ≤ 32 }
        requires inside { transfer.address + transfer.size ≤ 65536 }
        requires short { size ≤ 65536 }
        ensures { result ≡ row_of device transfer [] (Ended size error) }
    {
        Row {
            serial: 0,
            descriptor: transfer.descriptor,
            device,
            write: transfer.write,
            start: start_of(transfer),
            size: transfer.size,
            address: transfer.address,
            bytes: Bytes::new(alloc),
            copy: Bytes::new(alloc),
            life: Life::Ended { size, error },
        }
    }

    /// The serial, which no other request ever has.
    pub(crate) fn serial(&self) -> u64
        ensures { result ≡ self.now.serial }
    {
        self.serial
    }

    /// Gives it its serial.
    pub(crate) fn set_serial(&mut self, serial: u64)
        ensures { self.new ≡ record self.old { serial = serial } }
    {
        self.serial = serial;
    }

    /// The descriptor for which it was made.
    pub(crate) fn descriptor(&self) -> u8
        ensures descriptor { result ≡ self.now.descriptor }
        ensures small { result ≤ 32 }
    {
        self.descriptor
    }

    /// Its device.
    pub(crate) fn device(&self) -> u8
        ensures { result ≡ self.now.device }
    {
        self.device
    }

    /// Where in the script's memory bytes that are read go.
    pub(crate) fn address(&self) -> u32
        ensures { result ≡ self.now.address }
    {
        self.address
    }

    /// Whether it waits for its driver.
    pub(crate) fn is_queued(&self) -> bool
        ensures { result ≡ is_queued self.now.life }
    {
        matches!(self.life, Life::Queued)
    }

    /// Whether it is with its driver.
    pub(crate) fn is_at_driver(&self) -> bool
        ensures { result ≡ is_at_driver self.now.life }
    {
        matches!(self.life, Life::AtDriver)
    }

    /// Whether it has ended.
    pub(crate) fn has_ended(&self) -> bool
        ensures { result ≡ has_ended self.now.life }
    {
        matches!(self.life, Life::Ended { .. })
    }

    /// The answer by which its ending is claimed: the size or the error for a caller that stayed for it, and else its ID
    /// with both.
    pub(crate) fn claimed(&self, own: bool, id: u8) -> Answer
        ensures { result ≡ claimed_life own id self.now.life }
    {
        let Life::Ended { size, error } = self.life else {
            return plain(0);
        };
        let code = error.main_code();
        if !own {
            return Answer {
                value: id as i32,
                fields: [size as i32, code, 0, 0, 0],
                used: 2,
            };
        }
        if code == 0 {
            return plain(size as i32);
        }
        plain(code)
    }

    /// It goes to its driver under an ID and with a number; both places for its bytes go with it.
    pub(crate) fn hand(&mut self, alloc: Global, id: u8, number: u64) -> Handed
        requires { is_queued self.old.life ≡ true }
        ensures request { result.request ≡ request_of id number self.old }
        ensures copy { result.copy ≡ result.request.bytes }
        ensures whole { IsWhole result.request }
        ensures small { result.request.size ≤ 65536 }
        ensures left { self.new ≡ record self.old { bytes = []; life = AtDriver } }
    {
        self.life = Life::AtDriver;
        let bytes = std::mem::replace(&mut self.bytes, Bytes::new(alloc));
        let copy = std::mem::replace(&mut self.copy, Bytes::new(alloc));
        Handed {
            request: Request {
                id,
                number,
                write: self.write,
                start: self.start,
                size: self.size,
                bytes,
            },
            copy,
        }
    }

    /// It has ended.
    pub(crate) fn end(&mut self, size: u32, error: Er)
        requires { size ≤ 65536 }
        ensures { self.new ≡ record self.old { life = Ended size error } }
    {
        self.life = Life::Ended { size, error };
    }
}

/// Bytes in a place for so many.
pub(crate) fn bytes_within(alloc: Global, size: usize, bytes: &[u8]) -> Result<Bytes, AllocError>
    requires { length bytes.now ≤ size }
    ensures { IfOk result (λ place. place ≡ bytes_within size bytes.now) }
{
    let mut place = Vec::with_capacity(alloc, size)?;
    append(&mut place, bytes);
    Ok(Bytes::from_vec(place))
}
