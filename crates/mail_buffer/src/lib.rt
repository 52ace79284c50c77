//! Mailboxes and message buffers: their tables, the calls on them, and the serving of their waiters.
#![tactic(auto)]

mod attributes;
mod box_calls;
mod box_serving;
mod boxes;
mod buffer_calls;
mod buffer_serving;
mod buffers;
mod calls;
mod deleting;
mod posting;
mod receiving;
mod sending;
mod serving;
mod table;
#[cfg(test)]
mod tests;

pub use box_serving::serve_first_mailbox;
pub use buffer_serving::serve_first_buffer;
pub use calls::call;
pub use posting::post;
pub use serving::serve;
pub use table::Mails;
