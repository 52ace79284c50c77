//! Laws of mailboxes and message buffers, which stand beside the definitions of `object_model`. Other laws
//! cite its lemmas; no code is built on it.
#![tactic(auto)]

pub mod laws;
