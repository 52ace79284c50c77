//! Runs of tasks, semaphores and event flags, worked out by hand: each a theorem over the definitions. There is no code.
#![tactic(auto)]
