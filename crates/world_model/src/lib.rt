//! The world: a kernel beside the drivers of its devices, and every step that one of them may do, as definitions that compute:
//! the crate's `specs/` hold them. There is no code.
#![tactic(auto)]
