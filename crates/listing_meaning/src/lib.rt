//! The meaning of a listing: the function that its lines show, the machine image of its code, and the bytes of each
//! line; and the listing of a layout.
#![tactic(auto)]

pub mod laws;
