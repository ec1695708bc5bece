//! Number types, one for each kind of entity that a number names or counts: a block's number is no slot's, and
//! neither is a node's. A contract sees each as the plain number.
#![tactic(auto)]

pub mod function_ids;
pub mod limits;
pub mod metadata;
