//! The variables of the scopes of a function: each scope has the variables that its source declares in it, whether a
//! value of them is known or not.
//!
//! - `nodes`, `scope`: What nodes of the debug metadata are, and the scope that a variable is declared in.
//!
//! - `table`, `marked`: The variables of a program by their scopes, and the location lists of those that are marked.
//!
//! - `order`, `variables`: The variables of a scope and of a function itself, in their order.
//!
//! - `files`: The nodes that are `DILexicalBlockFile`.
//!
//! - `laws`: A scope has the variables that are declared in it. Laws, each the contract of a function that does nothing.
#![tactic(auto)]

pub mod files;
pub mod laws;
pub mod marked;
mod nodes;
mod order;
mod scope;
pub mod table;
pub mod variable;
pub mod variables;
