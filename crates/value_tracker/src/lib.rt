//! The value tracker of a block (LLVM: MLocTracker): the class of each machine location, debug operand pair and part of
//! a variable between two items, and the first location of each class. It starts from the block's live-in values and
//! steps over the items: an instruction sets the class of the register or slot that it writes, a call those of sixteen
//! registers, a debug value that of a part of a variable. Entities with the same class, other than 0, have the same
//! value on every path, so a variable's location is looked up by its class.
#![tactic(auto)]

pub use mir_substitution as mir_substitution_crate;
pub use value_solver as value_solver_crate;

pub mod class_location;
pub mod index;
pub mod laws;
pub mod location_tracker;
pub mod lowest_location;
pub mod part_list;
pub mod pass;
pub mod row;
pub mod start;
