//! What a function exposes to other code, besides its calls, stores and results.
#![tactic(auto)]

pub mod exposure;
