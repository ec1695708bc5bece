//! Backward liveness analysis of places (registers and slots). A place is live at a position of a function if some path
//! from there reaches code that reads it before code that sets it; debug items read nothing, so they don't affect
//! liveness. The result is the live-in set of each block, as a bit vector: first the function's slots, then all
//! registers. The solver visits the blocks in post-order, so that successors come first, and again those of which a
//! successor's set grew (a worklist); a last sweep over all blocks finds that no set grows. Within a block liveness is
//! computed from the block's end upwards, item by item, with the same transfer step.
#![tactic(auto)]

pub use mir_func as mir_func_crate;
pub use rv64_instr as rv64_instr_crate;

pub mod index;
pub mod live;
pub mod names;
pub mod set;
mod solve;
mod step;
pub mod successors;
mod walk;
mod words;
