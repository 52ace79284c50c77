//! Worlds that were worked out by hand from the rules: what kernel and drivers have come to after a list of steps, each a theorem
//! over the definitions. There is no code.
#![tactic(auto)]
