//! One round of dead code elimination: dead code is removed, and debug values and DBG_PHIs of places that become wrong
//! become undef. First it is computed which items are dead, then which places are wrong at the starts of blocks; from
//! there one forward walk over each block builds what remains of it. Losses are reported in the order of the text.
#![tactic(auto)]

pub use dce_stale::dce_analysis_crate as dce_analysis_crate;
pub use pass_liveness as pass_liveness_crate;

mod left;
pub mod round;
