//! Laws of tasks, semaphores and event flags, which stand beside the definitions of `kernel_model`. Nothing is built on this
//! crate.
#![tactic(auto)]

pub mod laws;
