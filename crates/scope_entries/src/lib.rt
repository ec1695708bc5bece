//! What stands inside a function, in prefix order: its variables, and each of its scopes with what stands inside it.
//!
//! - `links`, `steps`: The order of the scopes, by a walk over them.
//!
//! - `item`, `items`: What stands in them.
//!
//! - `laws`: Each scope stands in the next one around it. Laws, each the contract of a function that does nothing.
#![tactic(auto)]

pub mod item;
pub mod items;
pub mod laws;
mod links;
mod step;
mod steps;
