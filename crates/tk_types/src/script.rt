//! Scripts: devices, interrupts and bodies of statements, with names resolved to numbers.

use crate::call_name::CallName;
use crate::name::Name;
use crate::sequence::Sequence;
use crate::why::Why;

/// A script. Its lists are in the order of its lines.
#[derive(Drop, Debug)]
pub struct Script {
    /// At most 8 devices; their IDs are 1, 2, .. in order.
    pub devices: Sequence<Device>,
    /// A tick becomes pending at each step whose number this divides.
    pub pace: Option<u32>,
    /// At most 1,024 interrupts, by rising step.
    pub irqs: Sequence<Interrupt>,
    pub boot: Boot,
    /// From one to 255 bodies; a body's number is its place from 1.
    pub bodies: Sequence<Body>,
}

/// A device: its name, of at most 8 characters, and its kind of unit.
#[derive(Clone, Copy, Debug, PartialEq, Eq)]
pub struct Device {
    pub name: Name,
    pub kind: Kind,
}

/// The kind of a device's unit.
#[derive(Clone, Copy, Debug, PartialEq, Eq)]
pub enum Kind {
    /// Memory of that many bytes, from 1 to 65,536.
    Ram(u32),
    /// A store of at most 65,536 bytes that only grows.
    Log,
    /// Memory of that many bytes, of whose requests each k-th fails, k from 1 to 1,000.
    Flaky(u32, u32),
    /// Memory of that many bytes, whose driver makes that many empty turns before each block, at most 1,000.
    Slow(u32, u32),
}

/// An interrupt number that becomes pending at a step, from 1 to 1,000,000.
#[derive(Clone, Copy, Debug, PartialEq, Eq)]
pub struct Interrupt {
    pub step: u32,
    pub number: u8,
}

/// The body of the task that exists at the start, and its priority.
#[derive(Clone, Copy, Debug, PartialEq, Eq)]
pub struct Boot {
    pub body: u8,
    pub priority: u8,
}

/// What a body is for: a task, a handler, or the service of an extended call.
#[derive(Clone, Copy, Debug, PartialEq, Eq)]
pub enum BodyKind {
    Task,
    Hand,
    Svc,
}

/// A body of statements.
#[derive(Drop, Debug)]
pub struct Body {
    pub name: Name,
    pub kind: BodyKind,
    pub labels: Sequence<Label>,
    pub stmts: Sequence<Stmt>,
}

/// A label, and how many statements of its body stand before it.
#[derive(Clone, Copy, Debug, PartialEq, Eq)]
pub struct Label {
    pub name: Name,
    pub place: u32,
}

/// A number, or the register whose value is read when the statement is done.
#[derive(Clone, Copy, Debug, PartialEq, Eq)]
pub enum Operand {
    Number(i32),
    Register(u8),
}

/// What a computing statement does with its register. All numbers count modulo 2^32.
#[derive(Clone, Copy, Debug, PartialEq, Eq)]
pub enum Operation {
    Set,
    Add,
    Sub,
    Mul,
    And,
    Or,
    Xor,
}

/// When a jump is taken: always, or by comparing a register with a value as signed numbers.
#[derive(Clone, Copy, Debug, PartialEq, Eq)]
pub enum Condition {
    Always,
    Equal(u8, Operand),
    NotEqual(u8, Operand),
    Less(u8, Operand),
}

/// An argument of a call.
#[derive(Clone, Copy, Debug, PartialEq, Eq)]
pub enum Arg {
    Number(i32),
    Register(u8),
    /// A list, one bit for each word of its table.
    List(u32),
    /// The number of a body, or 0 for none.
    Body(u8),
    /// The name of a device.
    Name(Name),
}

/// A statement.
#[derive(Drop, Debug)]
pub enum Stmt {
    Compute {
        operation: Operation,
        register: u8,
        value: Operand,
    },
    /// Reads the byte at an address.
    Load {
        register: u8,
        address: Operand,
    },
    /// Writes the byte at an address.
    Store {
        address: Operand,
        value: Operand,
    },
    /// Jumps to the label with that place in the body's list of labels.
    Jump {
        condition: Condition,
        label: u32,
    },
    Say(Name),
    Show(Operand),
    Nop,
    Halt,
    Return(Operand),
    /// A system call with its arguments in order.
    Call {
        name: CallName,
        args: Sequence<Arg>,
    },
}

/// What a text is read as: a script, or a refusal at a line, for a reason.
#[derive(Drop, Debug)]
pub enum Reading {
    Script(Script),
    Refused { line: u32, why: Why },
}
