//! Lemmas on runs that go on: what a run has come to, in whatever order its drivers chose, is a front of the trace that is fed with
//! the endings that it took in, and of what passes in that. There is no code in it.
#![tactic(auto)]
