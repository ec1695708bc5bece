//! The line number table of a program as debuggers want it, and laws about it.
//!
//! A function has a row with the line of its own at its first address. The next one is where its prologue ends: a
//! debugger stops there at the function's name. Code of line 0 at the front of the first block behind the prologue has
//! the function's line, so that no breakpoint is at line 0. The files are numbered from 0 on, the unit's first.
//!
//! - `words`: The source position of each word.
//! - `lines`: The source positions for rows.
//! - `file`, `rows`, `function`, `table`: The table.
//! - `laws`: Laws, each the contract of a function that does nothing.
#![tactic(auto)]

pub mod file;
pub mod function;
pub mod laws;
pub mod lines;
pub mod rows;
pub mod table;
pub mod words;
