//! The calls of a debugger: lists of the objects that exist, queues of tasks, and hooks.
#![tactic(auto)]

mod calls;
mod hooks;
mod kinds;
mod listing;
mod places;
mod requests;
mod tasks;
mod views;

pub use calls::call;
pub use context_model::hook_set::HookSet;
pub use hooks::{Hooks, hooked};
pub use views::Views;
