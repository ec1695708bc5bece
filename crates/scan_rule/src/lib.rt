//! The first step of register allocation: virtual registers for which the linear scan finds one are replaced by physical
//! registers, in place. No item comes or goes. A debug value or DBG_PHI of a register names the new one, or becomes
//! undef where the new one may hold another value.
#![tactic(auto)]

pub use scan_allocation as scan_allocation_crate;
pub use scan_allocation::scan_intervals_crate as scan_intervals_crate;

pub mod laws;
