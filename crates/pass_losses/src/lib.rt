//! A pass's loss report: its losses without duplicates, first instruction numbers, then debug values by position, then
//! registers.
#![tactic(auto)]

pub mod told;
