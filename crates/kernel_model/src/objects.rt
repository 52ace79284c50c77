//! Objects of the kernel as its tables have them.

use tk_types::{FlagMode, Order};

/// A semaphore: how its waiters queue, whether each waiter that can be served is (or only the first of the queue), its
/// count, and the most that it may count.
#[derive(Clone, Copy, Debug, PartialEq, Eq)]
pub struct Semaphore {
    pub order: Order,
    pub any_place: bool,
    pub count: u16,
    pub most: u16,
}

/// An event flag: how its waiters queue, whether more than one task may wait for it, and its pattern of 32 bits.
#[derive(Clone, Copy, Debug, PartialEq, Eq)]
pub struct EventFlag {
    pub order: Order,
    pub many: bool,
    pub pattern: u32,
}

/// What a task waits for at an event flag: which bits, whether all of them or one, and which bits are cleared then.
#[derive(Clone, Copy, Debug, PartialEq, Eq)]
pub struct FlagWish {
    pub bits: u32,
    pub mode: FlagMode,
}
