//! Virtual registers are replaced by the physical ones that they get, in place: no item comes or goes. A debug value or
//! DBG_PHI becomes undef where the place of its register may have another value, and is reported as lost.
#![tactic(auto)]

pub use pass_losses as pass_losses_crate;
pub use scan_stale::scan_liveness_crate as scan_liveness_crate;

pub mod blocks;
pub mod code;
pub mod items;
pub mod lost;
pub mod named;
pub mod silence;

pub use scan_debug::laws as laws;
pub use scan_stale::scan_choice_crate::choice as choice;
