//! A fleet: the channel between the kernel and the driver of each device, what moves on it, and what a fleet that was closed tells
//! of it, as definitions that compute: the crate's `specs/` hold them. There is no code.
#![tactic(auto)]
