//! The driver of a device: what it does with each message of the kernel, with each of its turns, and with an ending that is
//! ready, as definitions that compute: the crate's `specs/` hold them. There is no code.
#![tactic(auto)]
