//! Scripts whose names aren't resolved yet.

use crate::head::Head;
use tk_types::{BodyKind, Device, Interrupt, Name, Sequence};

/// A script as its lines, read one by one. Its lists are in the order of the lines.
#[derive(Drop, Debug)]
pub struct RawScript {
    /// At most 8 devices.
    pub devices: Sequence<Device>,
    /// A tick becomes pending at each step whose number this divides.
    pub pace: Option<u32>,
    /// At most 1,024 interrupts, by rising step.
    pub irqs: Sequence<Interrupt>,
    pub boot: RawBoot,
    /// From one to 255 bodies.
    pub bodies: Sequence<RawBody>,
    /// The number of each line behind the first one that isn't skipped, in order.
    pub lines: Sequence<u32>,
}

/// The name of the body of the task that exists at the start, and its priority.
#[derive(Clone, Copy, Debug, PartialEq, Eq)]
pub struct RawBoot {
    pub body: Name,
    /// From 1 to 140.
    pub priority: u8,
}

/// A body: labels and statements in the order of their lines.
#[derive(Drop, Debug)]
pub struct RawBody {
    pub name: Name,
    pub kind: BodyKind,
    pub items: Sequence<RawItem>,
}

/// What a line between `body` and `end` holds.
#[derive(Drop, Debug)]
pub enum RawItem {
    Label(Name),
    Stmt(RawStmt),
}

/// A statement as its first word and its arguments.
#[derive(Drop, Debug)]
pub struct RawStmt {
    pub head: Head,
    pub pieces: Sequence<Piece>,
}

/// An argument as it is written.
#[derive(Clone, Copy, Debug, PartialEq, Eq)]
pub enum Piece {
    Number(i32),
    /// A register from 0 to 15.
    Register(u8),
    /// The name of a label, a body or a device, or a name that is printed.
    Name(Name),
    /// A list, one bit for each word of its table.
    List(u32),
    /// `-`, in the place of a body.
    Dash,
}
