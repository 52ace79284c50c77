//! Laws of the units of devices, which stand beside the definitions of `device_model`. No code is
//! built on this crate; proofs of `dev_units` cite its lemmas.
#![tactic(auto)]

pub mod laws;
