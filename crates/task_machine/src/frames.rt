//! Frames: where a body is being done, and its registers.

ghost use Rattle.std.specs.Prelude.{◌≡◌, ◌<◌, ◌∷◌, OnSome, length, map, take};
ghost use Rattle.std.specs.Int.{cast_unsigned, w32};
ghost use Rattle.std.specs.Option.{option_copied};
ghost use Rattle.kernel_model.specs.Bodies.Statements.{body_at, give, over, passed, register_value, start_frame, statement_at, with_register};

use tk_types::{Answer, Body, Frame, Script, Stmt};

/// A frame at the start of a body: its registers are zero but for r1 and r2.
pub fn start_frame(body: u8, first: i32, second: i32) -> Frame
    ensures { result ≡ start_frame body first second }
{
    let mut registers = [0; 16];
    registers[1] = first.cast_unsigned();
    registers[2] = second.cast_unsigned();
    Frame {
        body,
        place: 0,
        registers,
    }
}

/// The body with a number, from 1 on.
pub(crate) fn body_at<'a>(script: &'a Script, number: u8) -> Option<&'a Body>
    ensures { option_copied result ≡ body_at script.now number }
{
    if number == 0 {
        return None;
    }
    script.bodies.as_slice().get(number as usize - 1)
}

/// The statement at which a frame stands; none at the end of its body.
pub(crate) fn statement_at<'a>(script: &'a Script, frame: &Frame) -> Option<&'a Stmt>
    ensures statement { option_copied result ≡ statement_at script.now frame.now }
    ensures inside { OnSome result (frame.now.place < usize.MAX) }
{
    let body = body_at(script, frame.body)?;
    body.stmts.as_slice().get(frame.place)
}

/// A frame passes one statement.
pub(crate) fn pass(frame: &mut Frame)
    requires { frame.old.place < usize.MAX }
    ensures { frame.new ≡ passed frame.old }
{
    frame.place += 1;
}

/// The 32 bits of a register; a frame has no register above 15, and reads 0 there.
pub(crate) fn register_value(frame: &Frame, register: u8) -> u32
    ensures { result ≡ register_value frame.now register }
{
    match frame.registers.get(register as usize) {
        Some(value) => *value,
        None => 0,
    }
}

/// A register takes 32 bits; a frame has no register above 15, and keeps nothing there.
pub(crate) fn set_register(frame: &mut Frame, register: u8, value: u32)
    ensures { frame.new ≡ with_register frame.old register value }
{
    let place = register as usize;
    if place < frame.registers.len() {
        frame.registers[place] = value;
    }
}

/// The fields of an answer that count.
fn used_fields(answer: &Answer) -> &[i32]
    ensures { result.now ≡ take answer.now.used answer.now.fields }
{
    if answer.used < 5 {
        &answer.fields[..answer.used as usize]
    } else {
        &answer.fields
    }
}

/// The first register takes a value, and those behind it take the 32 bits of fields, in order.
fn write_registers(registers: &mut [u32], value: u32, fields: &[i32])
    requires { length fields.now < length registers.old }
    ensures { registers.new ≡ over (value ∷ map (cast_unsigned w32) fields.now) registers.old }
{
    registers[0] = value;
    'fields: for place in 0..fields.len() {
        registers[place + 1] = fields[place].cast_unsigned();
    }
}

/// An answer goes into a frame: its value into r0, and its fields into the registers behind.
#[tactic(auto, unfolding(kernel_model::specs::Bodies::Statements::give))]
pub fn give(frame: &mut Frame, answer: &Answer)
    ensures { frame.new ≡ give frame.old answer.now }
{
    let value = answer.value.cast_unsigned();
    write_registers(&mut frame.registers, value, used_fields(answer));
}
