//! Runs of mutexes, mailboxes, message buffers and pools, worked out by hand: each a theorem over the definitions. There is
//! no code.
#![tactic(auto)]
