//! Proves the inequality that self-tests print: all values in location lists during a run of compiled code are known to
//! the source, so no more values are read than are known.
#![tactic(auto)]

pub use selftest_count as selftest_count_crate;

pub mod laws;
