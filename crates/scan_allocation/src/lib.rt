//! Linear scan register allocation (Poletto and Sarkar, "Linear Scan Register Allocation"). The live intervals are taken
//! by their starts. Each register gets the first physical register in the allocation order that isn't blocked in its
//! interval, and that no earlier one holds whose interval meets it. A register for which there is none is left to a
//! slot. Nothing is taken back from an earlier one.
#![tactic(auto)]

pub use scan_intervals as scan_intervals_crate;
pub use spill_select as spill_select_crate;
pub use spill_select::spill_rule_crate as spill_rule_crate;

pub mod added;
pub mod assignment;
pub mod laws;
pub mod order;
pub mod walk;
