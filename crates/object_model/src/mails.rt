//! Rows of mailboxes.

/// A message of a mailbox, as it was sent: its priority, of which the least goes first where the box orders by it, and its
/// value.
#[derive(Clone, Copy, Debug, PartialEq, Eq)]
pub struct Message {
    pub priority: i32,
    pub value: i32,
}
