//! The paragraph on waiting calls for the whole machine, and the law that the calls do what it says. Other laws cite
//! its lemmas; no code is built on it.
#![tactic(auto)]

pub mod laws;
