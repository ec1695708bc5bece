//! Replacing virtual registers by physical ones preserves the simulation. The two runs are compared item by item. A
//! register's value is in its place as long as no other register's was put there; code reads no register where that may
//! have happened, since no register whose place is overwritten is live. Code that reads an unwritten virtual register
//! stops in the old function alone.
#![tactic(auto)]

pub mod laws;
