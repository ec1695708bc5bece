//! Tests of functions, of the interpreter, of substitutions and of the trait of passes, where no test of a whole run
//! shows them. The functions are written as texts.
#![tactic(auto)]

#[cfg(test)]
mod build;
#[cfg(test)]
mod functions;
#[cfg(test)]
mod laws;
#[cfg(test)]
mod rows;
#[cfg(test)]
mod runs;
