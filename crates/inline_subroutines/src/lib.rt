//! The inlined subroutines of a function with the subprograms that were inlined: what their entries tell.
//!
//! - `subroutine`, `subroutines`, `subprogram`: The instances of a function, each with its subprogram and its addresses.
//!   Each scope is walked once, however many instances ask for its subprogram.
//!
//! - `laws`: An address is in the ranges of an inlined subroutine exactly if the first code at or after its instruction's
//!   origin was inlined through the subroutine's call; the ranges ascend; a call has one subroutine at most, behind the
//!   one in whose code it is. Laws, each the contract of a function that does nothing.
#![tactic(auto)]

pub mod laws;
pub mod subprogram;
pub mod subroutine;
pub mod subroutines;
