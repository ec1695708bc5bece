//! Printed lines of a function's body parse back to the items that they were printed from.
//!
//! - `line_laws`: Printed lines are parsed as the forms of their items: laws, each the contract of a function that
//!   does nothing.
//!
//! - `code_laws`: The form of a printed line is judged as the item that it was printed from: a law, the contract of a
//!   function that does nothing.
//!
//! - `body_laws`: The printed lines of a body are read as its blocks: laws, each the contract of a function that does
//!   nothing.
//!
//! - `item_laws`: The items of a function that was read have lines that are read back: a law, the contract of a
//!   function that does nothing.
//!
//! - `object_laws`: Instructions that name stack objects are judged the same again: a law, the contract of a function
//!   that does nothing.
#![tactic(auto)]

pub mod body_laws;
pub mod code_laws;
pub mod item_laws;
pub mod line_laws;
pub mod object_laws;
