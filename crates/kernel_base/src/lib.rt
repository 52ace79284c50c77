//! The base of the kernel: what it keeps of tasks, and the moves on it, of which all calls are made.
#![tactic(auto)]

pub mod answers;
mod base;
mod calls;
mod ending;
mod events;
mod handlers;
mod ids;
mod joining;
mod priorities;
mod queueing;
mod reading;
mod releases;
mod restoring;
mod rows;
mod suspending;
mod view;
mod waiting;
mod writing;

pub use base::Base;
pub use tk_types::{Event, Flags, Order, Release};
pub use view::TaskView;
