//! The dead code elimination pass: rounds until nothing is dead.
//!
//! - `rounds_laws`, `rounds`: Rounds of dead code elimination, until one removes nothing.
//!
//! - `steps_laws`: Rounds as the steps of a pass: each round is one step, with its code rule and a debug rule over the
//!   function before the round and the one after it. A round in which nothing is dead changes nothing, so one number of
//!   steps is enough for every function.
//!
//! - `dead`: The pass. An instruction is removed if its only effect is to set a place that no code after it needs, or
//!   x0. This is done in rounds, until nothing is dead: what one round removes may be the last use of a place. The
//!   number of a removed copy is substituted by the code that defined its value, or is put on a DBG_PHI; other losses
//!   are reported round by round.
#![tactic(auto)]

pub mod dead;
pub mod rounds;
pub mod rounds_laws;
pub mod steps_laws;
