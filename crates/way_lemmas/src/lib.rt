//! Lemmas on what passes between kernel and drivers in a run: few messages wait on the way to a driver, and in sync mode each ending
//! is determined. There is no code in it.
#![tactic(auto)]
