//! Numbers and lists of registers in the words of a command line.
//!
//! - `generation`, `list`, `number`: Numbers in the words of a command line: each in decimal digits, without leading
//!   zeros.
//!
//! - `name`, `text`: Lists of registers that may be spilled: each one that may be reserved, each once, separated by
//!   commas.
//!
//! - `symbols`: Lists of symbols and their addresses: each symbol once, separated by commas.
#![tactic(auto)]

pub mod generation;
pub mod list;
pub mod name;
pub mod number;
pub mod symbols;
pub mod text;
