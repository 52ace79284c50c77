//! The rules of mutexes, mailboxes, message buffers and memory pools, as definitions that compute: the crate's `specs/` hold
//! them, a folder for each family of calls. There is no other code than the types that the rules name.
#![tactic(auto)]

pub mod mails;
pub mod mutexes;
pub mod pools;
