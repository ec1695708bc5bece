//! The copy propagation pass. Along a block it is known which register has the same value as a root. Explicit uses are
//! replaced by roots, and redundant copies are removed. The number of such a copy is substituted by the code that
//! defined the value, or is on a DBG_PHI in the copy's position, so nothing is lost.
#![tactic(auto)]

pub mod copies;
