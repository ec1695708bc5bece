//! Writer of location lists for debuggers: the section `.debug_loclists` of DWARF 5 as `dwarf_loclists` writes it, but
//! for the locations of variables whose sizes are known. Each location covers all bytes of its variable: a place has its
//! first eight, and what has no place is told to have none, so that a debugger shows no byte that isn't known.
#![tactic(auto)]

pub mod constants;
pub mod list;
mod location;
pub mod section;
