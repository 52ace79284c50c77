//! Laws of mutexes and of current priorities, which stand beside the definitions of `object_model`. No code calls this crate; its
//! lemmas are cited by those of the whole machine, on which the proofs of the program's code stand.
#![tactic(auto)]

pub mod laws;
