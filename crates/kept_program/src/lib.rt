//! What the location lists of a program that was compiled say of suspended functions is true, whatever the callee did.
#![tactic(auto)]

pub mod laws;
