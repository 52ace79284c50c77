//! Laws of time, handlers, interrupts, services and lists, which stand beside the definitions of `context_model`. No code calls this
//! crate; its lemmas are cited by those of the whole machine, on which the proofs of the program's code stand.
#![tactic(auto)]

pub mod laws;
