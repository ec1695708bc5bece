//! The linear scan as a pass of two steps. First virtual registers get physical ones, in place; then those that are left
//! get slots. The function stays as it is where fewer than two scratch registers are free, where code that a pass added
//! names a virtual register, and where there would be too many slots.
#![tactic(auto)]

pub use scan_slots::{
    scan_allocation_crate as scan_allocation_crate, scan_intervals_crate as scan_intervals_crate,
};

pub mod laws;
