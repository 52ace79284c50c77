//! What passes between the kernel and the drivers in a run, and what the record of a fleet tells of it, as definitions that
//! compute: the crate's `specs/` hold them. There is no code.
#![tactic(auto)]
