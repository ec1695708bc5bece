//! Tests of lists, of instructions and their encodings, of reading and writing, and of error messages, where no test of
//! a whole run (`test_program`) shows them.
#![tactic(auto)]

#[cfg(test)]
mod callees;
#[cfg(test)]
mod command;
#[cfg(test)]
mod instructions;
#[cfg(test)]
mod items;
#[cfg(test)]
mod linked;
#[cfg(test)]
mod parts;
#[cfg(test)]
mod streams;
#[cfg(test)]
mod words;
