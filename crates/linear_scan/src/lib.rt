//! Linear scan register allocation as a pass (Poletto and Sarkar, "Linear Scan Register Allocation"). First virtual
//! registers get physical ones, in place; then those that are left get slots. The function's code stays as it is where
//! fewer than two scratch registers are free, where code that a pass added names a virtual register, and where there would
//! be too many slots.
#![tactic(auto)]

pub use frame_lowering as frame_lowering_crate;
pub use scan_allot::pass_losses_crate as pass_losses_crate;
pub use scan_settle::mir_type_facts_crate as mir_type_facts_crate;

pub mod allot;
pub mod scan;
