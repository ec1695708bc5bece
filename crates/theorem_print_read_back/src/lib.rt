//! Round-trip theorems: a function that is printed whole, debug instructions and substitutions included, parses back to
//! itself. No other crate depends on these theorems.
//!
//! - `substitution_laws`: Printed debug value substitutions parse back to themselves.
//!
//! - `print_laws`: The printed text of a function that was read parses back to that function.
#![tactic(auto)]

pub mod print_laws;
pub mod substitution_laws;
