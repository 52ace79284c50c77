//! The machine of a task: its frames and their registers, the script's memory, and what each statement does.
#![tactic(auto)]

mod frames;
mod memory;
mod operands;
mod statements;
#[cfg(test)]
mod tests;

pub use frames::{give, start_frame};
pub use memory::{Memory, byte, bytes, move_bytes, new_memory, set_byte, size, write_bytes};
pub use statements::{call_before, fetch};
