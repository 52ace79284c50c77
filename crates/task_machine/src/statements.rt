//! Statements: what each does to its frame and to the script's memory, and what it asks of the machine.

ghost use Rattle.std.specs.Prelude.{◌≡◌, ◌<◌, if◌then◌else◌};
ghost use Rattle.kernel_model.specs.Bodies.Statements.{byte_at, call_before, computed, fetch, is_less, is_taken, IsRunnable, label_place, operand_value, passed, register_value, with_byte, with_register};

use crate::frames::{body_at, pass, register_value, set_register, statement_at};
use crate::memory::{Memory, SIZE, byte, set_byte};
use crate::operands::{argument_values, operand_value, signed_value};
use tk_types::{Act, Call, CallName, Condition, Frame, Operand, Operation, SayText, Script, Stmt};

/// What an operation makes of the 32 bits of a register and a value.
fn computed(operation: Operation, old: u32, value: u32) -> u32
    ensures { result ≡ computed operation old value }
{
    match operation {
        Operation::Set => value,
        Operation::Add => old.wrapping_add(value),
        Operation::Sub => old.wrapping_sub(value),
        Operation::Mul => old.wrapping_mul(value),
        Operation::And => old & value,
        Operation::Or => old | value,
        Operation::Xor => old ^ value,
    }
}

/// Computes with a register.
fn compute(frame: &mut Frame, operation: Operation, register: u8, value: Operand)
    requires { frame.old.place < usize.MAX }
    ensures { frame.new ≡ with_register (passed frame.old) register (computed operation (register_value frame.old register) (operand_value frame.old value)) }
{
    let old = register_value(frame, register);
    let value = operand_value(frame, value);
    pass(frame);
    set_register(frame, register, computed(operation, old, value));
}

/// A register takes the byte at an address.
fn load(frame: &mut Frame, memory: &Memory, register: u8, address: Operand)
    requires { frame.old.place < usize.MAX }
    ensures { frame.new ≡ with_register (passed frame.old) register (byte_at memory.now (operand_value frame.old address)) }
{
    let address = operand_value(frame, address);
    pass(frame);
    set_register(frame, register, byte(memory, address % SIZE) as u32);
}

/// The byte at an address takes the low 8 bits of a value.
fn store(frame: &mut Frame, memory: &mut Memory, address: Operand, value: Operand)
    requires { frame.old.place < usize.MAX }
    ensures passed { frame.new ≡ passed frame.old }
    ensures stored { memory.new ≡ with_byte memory.old (operand_value frame.old address) (operand_value frame.old value) }
{
    let address = operand_value(frame, address);
    let value = operand_value(frame, value);
    pass(frame);
    set_byte(memory, address % SIZE, (value % 256) as u8);
}

/// Whether one number is less than another, both signed.
fn is_less(old: u32, value: u32) -> bool
    ensures { result ≡ is_less old value }
{
    old.cast_signed() < value.cast_signed()
}

/// Whether a jump is taken.
fn is_taken(frame: &Frame, condition: Condition) -> bool
    ensures { result ≡ is_taken frame.now condition }
{
    match condition {
        Condition::Always => true,
        Condition::Equal(register, value) => register_value(frame, register)
            == operand_value(frame, value),
        Condition::NotEqual(register, value) => register_value(frame, register)
            != operand_value(frame, value),
        Condition::Less(register, value) => is_less(
            register_value(frame, register),
            operand_value(frame, value),
        ),
    }
}

/// Where the label with that place in the list of a frame's body stands.
fn label_place(script: &Script, frame: &Frame, label: u32) -> usize
    ensures { result ≡ label_place script.now frame.now label }
{
    match body_at(script, frame.body) {
        None => 0,
        Some(body) => match body.labels.as_slice().get(label as usize) {
            None => 0,
            Some(at) => at.place as usize,
        },
    }
}

/// Goes to a label, where the condition holds, else to the next statement.
fn jump(script: &Script, frame: &mut Frame, condition: Condition, label: u32)
    requires { frame.old.place < usize.MAX }
    ensures { frame.new ≡ (if is_taken frame.old condition then record frame.old { place = label_place script.now frame.old label } else passed frame.old) }
{
    if is_taken(frame, condition) {
        frame.place = label_place(script, frame, label);
    } else {
        pass(frame);
    }
}

/// A frame passes a statement that asks for something.
fn ask(act: Act, frame: &mut Frame) -> Act
    requires { frame.old.place < usize.MAX }
    ensures asked { result ≡ act }
    ensures passed { frame.new ≡ passed frame.old }
{
    pass(frame);
    act
}

/// Does one statement of a frame, and answers what it asks of the machine.
#[tactic(auto, unfolding(kernel_model::specs::Bodies::Statements::fetch))]
pub fn fetch(frame: &mut Frame, memory: &mut Memory, script: &Script) -> Act
    requires { IsRunnable script.now }
    ensures { fetch script.now frame.old memory.old ≡ record { frame = frame.new; memory = memory.new; act = result } }
{
    let Some(stmt) = statement_at(script, frame) else {
        return Act::Fell;
    };
    match stmt {
        Stmt::Compute {
            operation,
            register,
            value,
        } => {
            compute(frame, *operation, *register, *value);
            Act::Computed
        }
        Stmt::Load { register, address } => {
            load(frame, memory, *register, *address);
            Act::Computed
        }
        Stmt::Store { address, value } => {
            store(frame, memory, *address, *value);
            Act::Computed
        }
        Stmt::Jump { condition, label } => {
            jump(script, frame, *condition, *label);
            Act::Computed
        }
        Stmt::Say(name) => ask(Act::Say(SayText::Name(*name)), frame),
        Stmt::Show(value) => ask(
            Act::Say(SayText::Number(signed_value(frame, *value))),
            frame,
        ),
        Stmt::Nop => ask(Act::Computed, frame),
        Stmt::Halt => ask(Act::Halt, frame),
        Stmt::Return(value) => ask(Act::Return(signed_value(frame, *value)), frame),
        Stmt::Call { name, args } => {
            let args = argument_values(script, frame, args.as_slice());
            ask(Act::Call(Call::new(*name, &args)), frame)
        }
    }
}

/// The call in which a frame's task waits: that of the statement it passed last.
#[tactic(auto, unfolding(kernel_model::specs::Bodies::Statements::call_before))]
pub fn call_before(script: &Script, frame: &Frame) -> Option<CallName>
    ensures { result ≡ call_before script.now frame.now }
{
    let at = Frame {
        place: frame.place.saturating_sub(1),
        ..*frame
    };
    match statement_at(script, &at)? {
        Stmt::Call { name, .. } => Some(*name),
        _ => None,
    }
}
