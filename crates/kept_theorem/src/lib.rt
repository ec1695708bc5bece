//! Backtrace: what location lists say of suspended frames is true, whatever the callee did below.
#![tactic(auto)]

pub mod laws;
