//! The second step of register allocation: the virtual registers that are left live in slots, by the rewriting of
//! spilling. They get new slots in the order of their live intervals. A virtual register has no value at the function's
//! start, so nothing is stored there.
#![tactic(auto)]

pub use scan_rule::{
    scan_allocation_crate as scan_allocation_crate, scan_intervals_crate as scan_intervals_crate,
};

pub mod laws;
