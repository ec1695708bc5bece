//! Tests of calls on functions and their machine code that no whole run shows: a simulated run step by step, the stops
//! that no compiled code comes to, the call frame information of functions, and functions with halves of symbols'
//! addresses, with fixed objects, with calls by registers and in tail position, and with calls that don't return,
//! compiled and interpreted; location lists that are true in suspended frames; the printing of substitutions and of
//! virtual registers; and what the layout, the value numbering and the instances of inlined functions have besides the
//! words.
#![tactic(auto)]

#[cfg(test)]
mod frames;
#[cfg(test)]
mod inlined;
#[cfg(test)]
mod linked_functions;
#[cfg(test)]
mod linked_gone;
#[cfg(test)]
mod linked_halves;
#[cfg(test)]
mod linked_rows;
#[cfg(test)]
mod linked_runs;
#[cfg(test)]
mod linked_stack;
#[cfg(test)]
mod linked_tails;
#[cfg(test)]
mod printed_functions;
#[cfg(test)]
mod printed_items;
#[cfg(test)]
mod smallest;
#[cfg(test)]
mod suspended;
#[cfg(test)]
mod tests;
