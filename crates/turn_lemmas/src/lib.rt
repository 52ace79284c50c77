//! A machine with the fleet that follows it, event by event: what holds while a run with drivers goes on, and when it ends. There is
//! no code in it.
#![tactic(auto)]
