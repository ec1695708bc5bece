//! The body of a machine function as the MIR parser builds it: blocks of items, and the checks that need more than
//! one line.
//!
//! A label begins a block, and an item is appended to the block that was begun last. Each line is checked against
//! those before it, for duplicate numbers and for limits. The origin of an item is the position where it was read,
//! and a block's silent position is its number of items.
#![tactic(auto)]

pub use read_declarations as read_declarations_crate;
pub use read_declarations::mir_substitution_crate as mir_substitution_crate;

pub mod body;
pub mod closing;
pub mod first_use_order;
pub mod fixed_objects;
pub mod limits;
pub mod stack_entry_kind;
pub mod variables;
