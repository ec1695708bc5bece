//! The report on the debug info coverage and losses of one function, and of a program.
//!
//! - `covers`, `make`, `text`, `report`: How much debug info of a function was lost in compilation: how many
//!   of its machine words are in the location list of each variable, and which debug instruction numbers, debug values
//!   and registers the passes gave up, and why. The losses are in the order of the passes.
//!
//! - `reported_function`: What is reported of one function of a program.
#![tactic(auto)]

mod covers;
pub mod make;
pub mod report;
pub mod reported_function;
pub mod text;
