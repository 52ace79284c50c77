//! The leave to wait.

use std::snapshot::Snapshot;
use std::sync::Wait;

/// The leave of a runtime to wait, which holds nothing: a thread and a gate may keep it.
#[derive(Drop)]
pub struct Leave<R>(pub Snapshot<R>);

impl<R> Leave<R> {
    /// The leave of a runtime.
    pub fn of(rt: &R) -> Leave<R> {
        Leave(Snapshot::of(rt))
    }
}

impl<R: Wait> Wait for Leave<R> {}
