//! Dropping and salvaging the debug instruction number of a dead copy preserves the weak simulation.
//!
//! - `drop_laws`: A dropped number: its code stays without it, perhaps with an undef DBG_PHI before it, so that the
//!   number has no value any more. This preserves the weak simulation, which is true between two rounds of dead code
//!   elimination, since debug values only have fewer values.
//!
//! - `salvage_laws`: A function whose copies have lost their numbers is sound and has the same code, and this preserves
//!   the weak simulation, whichever items count as dead.
#![tactic(auto)]

pub use dce_salvage as dce_salvage_crate;
pub use pass_salvage as pass_salvage_crate;

pub mod drop_laws;
pub mod salvage_laws;
