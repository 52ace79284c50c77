//! A fleet that follows a run: what its channels hold while the run goes on, and that each call keeps it. There is no code in it.
#![tactic(auto)]
