//! Runs of time, handlers, interrupts, services and hooks, worked out by hand: each a theorem over the definitions. There
//! is no code.
#![tactic(auto)]
