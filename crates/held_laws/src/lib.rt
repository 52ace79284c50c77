//! Laws of what objects hold, in every state that the whole machine comes to, which stand beside its definitions. Nothing is built
//! on this crate.
#![tactic(auto)]

pub mod laws;
