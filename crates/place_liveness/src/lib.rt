//! Liveness of one place: at the starts of which blocks of a function it is live. A block's start is reached from its
//! uses, and against the edges of the function's graph from the start of each block, past code that doesn't set the
//! place. So it takes time by the blocks at whose starts the place is live, whatever else the function has; and after
//! code was removed, by those whose liveness hung on it.
#![tactic(auto)]

mod doubt;
pub mod place;
pub mod renewal;
mod step;
mod walk;
pub mod ways;
