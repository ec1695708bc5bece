//! Printed documents parse back to the functions that they were printed from, without debug instructions.
//!
//! - `document_laws`: Documents of functions are read back: laws, each the contract of a function that does nothing.
//!
//! - `declaration_laws`: The name and the stack entries of a function are read back: laws, each the contract of a
//!   function that does nothing.
//!
//! - `frame_laws`: The stack frame of a function is read back: laws, each the contract of a function that does
//!   nothing.
//!
//! - `body_laws`: Invariants of a body that was read, beyond those of its function: laws, each the contract of a
//!   function that does nothing.
//!
//! - `printed_laws`: Printed lines are read unchanged: laws, each the contract of a function that does nothing.
//!
//! - `function_laws`: Functions without their debug items are read back: laws, each the contract of a function that
//!   does nothing.
//!
//! - `name_laws`: The names in a program that was read consist of bytes: a law, the contract of a function that does
//!   nothing.
#![tactic(auto)]

pub mod body_laws;
pub mod declaration_laws;
pub mod document_laws;
pub mod frame_laws;
pub mod function_laws;
pub mod name_laws;
pub mod printed_laws;
