//! The reader of LLVM debug metadata in the IR block of a MIR file.
//!
//! A function in machine IR refers to its variables and source locations by numbered nodes, `!5`, which the block
//! with the LLVM IR before it defines: `!5 = !DILocalVariable(name: "n", ..)` is node 5. This crate reads the lines
//! of the kinds of nodes that debug information is generated from, and the subprogram of each function, and looks up
//! nodes by number. All other lines of the block are ignored, whatever they contain. (LLVM Language Reference Manual,
//! "Metadata" and "Specialized Metadata Nodes".)
#![tactic(auto)]

pub use read_lexer as read_lexer_crate;
pub use rv64_instr as rv64_instr_crate;

mod definition;
mod encoding;
mod field;
mod kind;
mod line;
pub mod metadata;
pub mod node;
pub mod number;
pub mod text;
pub mod token;
