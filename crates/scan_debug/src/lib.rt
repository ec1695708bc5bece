//! What the first step of register allocation keeps: the function stays sound, no item comes or goes, and each debug
//! value and DBG_PHI is kept, renamed, or lost with its cause.
#![tactic(auto)]

pub mod laws;
