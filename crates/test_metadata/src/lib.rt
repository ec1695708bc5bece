//! Tests of debug metadata as a debugger's information is made of it: the types of a program, and the nodes of code and
//! variables.
#![tactic(auto)]

#[cfg(test)]
mod nodes;
#[cfg(test)]
mod program;
#[cfg(test)]
mod rows;
#[cfg(test)]
mod shapes;
