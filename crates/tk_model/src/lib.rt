//! The rules of texts, as definitions that compute: words and lines, scripts in their printed form, the lines of a
//! trace and the entries of a journal. The crate's `specs/` hold them; there is no other code.
#![tactic(auto)]
