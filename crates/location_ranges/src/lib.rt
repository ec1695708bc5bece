//! Location lists of a function's variables, by one walk over its machine code. The walk carries the tracker's state
//! from item to item of a block, beginning with the block's live-in values, and before each item looks up the location
//! of each part of a variable by its class. Where that changed for some part of a variable, its location is asked: if it
//! differs from that of the variable's open range, the range is closed there and another one opened. Ranges extend
//! across blocks. One walk over the entries of the machine code computes the lists of all variables.
#![tactic(auto)]

pub mod laws;
pub mod places;
pub mod ranges;
pub mod seen;
pub mod track;
pub mod transfer_tracker;
pub mod turn;
pub mod values;
