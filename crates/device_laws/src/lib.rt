//! Laws of devices and their requests, which stand beside the definitions of `device_model`. Other laws cite
//! its lemmas; no code is built on it.
#![tactic(auto)]

pub mod laws;
