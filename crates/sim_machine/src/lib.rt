//! A simulator of the machine semantics (`sem_machine`), one word at a time. A simulator state represents states of the
//! semantics, and a step of the simulator is a step of the semantics on the image of the code, so theorems on the
//! semantics hold of a program that runs compiled code by this simulator. At a call site a `CallAnswers` determines the
//! call's results and memory writes; it never writes a byte of the frame. Memory is a map of the bytes that were
//! written. The entry at an address is found by its index, without a search. Location lists are read at the program
//! counter, and the places in them are read in the current state.
#![tactic(auto)]

pub mod answers;
mod call;
mod departure;
pub mod ending;
pub mod hart;
pub mod machine;
mod operation;
mod site;
pub mod value;
mod word;
