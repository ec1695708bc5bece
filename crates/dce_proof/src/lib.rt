//! One round of dead code elimination: its effect on debug values, and the size of its result.
//!
//! - `size_laws`: The size of a function after a round: it is no larger, and the greatest number grows by at most the
//!   number of removed items.
//!
//! - `debug_laws`: The effect of a round on debug items. A ledger has a line for each item: the items that it becomes
//!   once dead copies have lost their numbers. Debug values and DBG_PHIs are kept, or become undef if removed code
//!   makes their place wrong; the number of a dead copy is substituted by the code that defined its value, or is on a
//!   DBG_PHI; any other number of dead code is lost.
#![tactic(auto)]

pub mod debug_laws;
pub mod size_laws;

pub use dce_round::round as one_round;
