//! Live-in value analysis of machine code with its frame (LLVM: InstrRefBasedLDV). Tracked are registers, frame slots,
//! pairs of a debug instruction number and an operand, parts of variables, and constants. A walk over a block's items
//! computes its flow: for each tracked entity the source of its token at the block's end, which is some entity's token
//! at the start, a new token, or none. The solver then computes the entries of all blocks, exact over all paths.
#![tactic(auto)]

mod above;
mod changes;
mod flows;
mod gather;
mod key;
mod note;
mod opening;
pub mod things;
pub mod values;
mod ways;
