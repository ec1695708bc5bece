//! Dataflow analysis of a control-flow graph: the order in which blocks are visited, the predecessors, and the fixpoint
//! of any analysis.
//!
//! - `graph`, `order`: A graph is the list of each block's successors. Blocks are named by their indices.
//! - `solver`: The solver. An analysis says what is known of all blocks and how a block is visited. Visits go on by a
//!   worklist, or by sweeps over all blocks, until no visit changes anything.
#![tactic(auto)]

pub mod graph;
pub mod order;
pub mod solver;
mod worklist;
