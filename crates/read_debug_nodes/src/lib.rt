//! The second reading of debug metadata in the IR block of a MIR file: what a debugger is told beside variables and
//! source locations. It reads types, tuples, and more fields of the nodes that `read_metadata` reads. A line that is
//! readable here may not be so there, and the other way round. (LLVM Language Reference Manual, "Metadata" and
//! "Specialized Metadata Nodes".)
#![tactic(auto)]

pub use read_metadata as read_metadata_crate;

mod codes;
mod field;
mod kind;
mod line;
pub mod metadata;
pub mod node;
mod number;
mod tuple;
mod types;
mod value;
