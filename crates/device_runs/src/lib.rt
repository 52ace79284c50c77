//! Runs of devices and journals, worked out by hand: each a theorem over the definitions. There is no code.
#![tactic(auto)]
