//! Liveness of registers around each code of a function, for linear scan register allocation. The points of code are
//! visited from the end of the text upwards.
#![tactic(auto)]

pub use scan_allocation as scan_allocation_crate;
pub use scan_allocation::spill_select_crate as spill_select_crate;

pub mod extents;
pub mod intervals;
pub mod liveness;
pub mod masks;
pub mod registers;
pub mod walk;
