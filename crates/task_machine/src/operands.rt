//! What numbers, registers and arguments stand for.

ghost use Rattle.std.specs.Prelude.{◌≡◌, ◌≤◌, bytes_eq, length, position, slice_get};
ghost use Rattle.std.specs.Int.{cast_signed, w32};
ghost use Rattle.kernel_model.specs.Bodies.Statements.{argument_value, argument_values, device_number, IsRunnable, operand_value, value_in};

use crate::frames::register_value;
use tk_types::{Arg, Device, Frame, Operand, Script};

/// The 32 bits that a number or a register stands for.
pub(crate) fn operand_value(frame: &Frame, operand: Operand) -> u32
    ensures { result ≡ operand_value frame.now operand }
{
    match operand {
        Operand::Number(number) => number.cast_unsigned(),
        Operand::Register(register) => register_value(frame, register),
    }
}

/// The signed number that an operand stands for.
pub(crate) fn signed_value(frame: &Frame, operand: Operand) -> i32
    ensures { result ≡ cast_signed w32 (operand_value frame.now operand) }
{
    operand_value(frame, operand).cast_signed()
}

/// The place of the device with a name.
fn device_place(devices: &[Device], name: &[u8]) -> Option<usize>
    ensures { result ≡ position (λ device. bytes_eq device.name name.now) devices.now }
{
    devices
        .iter()
        .position(|device| device.name.as_bytes() == name)
}

/// The ID of the device with a name, or 0.
fn device_number(devices: &[Device], name: &[u8]) -> u32
    requires { length devices.now ≤ 8 }
    ensures { result ≡ device_number devices.now name.now }
{
    match device_place(devices, name) {
        Some(place) => place as u32 + 1,
        None => 0,
    }
}

/// The 32 bits that an argument stands for.
fn argument_value(script: &Script, frame: &Frame, arg: &Arg) -> u32
    requires { IsRunnable script.now }
    ensures { result ≡ argument_value script.now frame.now arg.now }
{
    match arg {
        Arg::Number(number) => number.cast_unsigned(),
        Arg::Register(register) => register_value(frame, *register),
        Arg::List(bits) => *bits,
        Arg::Body(body) => *body as u32,
        Arg::Name(name) => device_number(script.devices.as_slice(), name.as_bytes()),
    }
}

/// The value of the argument in a place, 0 behind the last.
fn value_at(script: &Script, frame: &Frame, args: &[Arg], place: usize) -> u32
    requires { IsRunnable script.now }
    ensures { result ≡ value_in script.now frame.now (slice_get args.now place) }
{
    match args.get(place) {
        None => 0,
        Some(arg) => argument_value(script, frame, arg),
    }
}

/// The values of the arguments in the five places that a call may have, 0 behind the last.
pub(crate) fn argument_values(script: &Script, frame: &Frame, args: &[Arg]) -> [u32; 5]
    requires { IsRunnable script.now }
    ensures { result ≡ argument_values script.now frame.now args.now }
{
    [
        value_at(script, frame, args, 0),
        value_at(script, frame, args, 1),
        value_at(script, frame, args, 2),
        value_at(script, frame, args, 3),
        value_at(script, frame, args, 4),
    ]
}
