//! Laws of journals, of the turns of runs, and of requests in every run, which stand beside the definitions of `machine_model`.
//! Nothing is built on this crate.
#![tactic(auto)]

pub mod laws;
pub mod requests;
pub mod turns;
