//! Correctness of class numbers, and of the first location of a value.
//!
//! - `path_laws`: Class numbers at a position: two tracked entities have the same class if and only if they have the
//!   same token on every path to it. Laws on their step over an item, on paths into a position, and on the locations
//!   that are required.
//!
//! - `kept_laws`: Values that stay in their location. After a debug value whose value is in a place, that place holds
//!   the variable's value at each later point of the block as long as no item sets the place and no other debug value
//!   assigns the part or an overlapping one. So exact location lists name a location there: an available value isn't
//!   lost.
#![tactic(auto)]

pub mod kept_laws;
pub mod path_laws;
