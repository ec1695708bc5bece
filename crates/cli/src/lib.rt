//! The command line: options, commands and exit statuses.
//!
//! - `options`, `option`, `parse_options`: The options of a command: the list of passes, the registers that may be
//!   spilled, and the numbers of a run, in any order and each at most once.
//!
//! - `command`, `fault`, `status`: The commands and their words, the faults of a run with the lines that report them,
//!   and the exit codes.
#![tactic(auto)]

pub mod command;
pub mod fault;
pub mod option;
pub mod options;
pub mod parse_options;
pub mod status;
