//! Machine code as an image of bytes and listed lines, and the operational semantics of the machine that runs it. The
//! machine fetches a little-endian word at its counter, decodes it by the instruction set listings and runs its row;
//! at a call site it calls. It knows nothing of the function that was compiled: only the listed origins match its
//! states with the source's. What the location lists guarantee is a theorem about both runs.
#![tactic(auto)]

pub mod laws;
