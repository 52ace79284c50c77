//! Lemmas on the definitions of `device_model`: what each move on devices keeps, all that is made of moves keeps. There is no
//! code in it.
#![tactic(auto)]
