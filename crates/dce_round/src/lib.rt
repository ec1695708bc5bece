//! One round of dead code elimination, with its debug items: it computes which code is dead, salvages the numbers of
//! dead copies from the last to the first, removes the dead code, and puts the losses in order.
#![tactic(auto)]

pub mod laws;
pub mod round;
