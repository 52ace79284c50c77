//! Mutexes as their table has them.

use tk_types::Order;

/// A mutex: how its waiters queue, whether its owner inherits the priorities of those that wait for it, its ceiling, where it
/// has one, which no task that locks it may be above by its base priority and which its owner gets, and the task that owns it,
/// or 0.
#[derive(Clone, Copy, Debug, PartialEq, Eq)]
pub struct Mutex {
    pub order: Order,
    pub inherits: bool,
    pub ceiling: Option<u8>,
    pub owner: u8,
}
