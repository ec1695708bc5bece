//! Tests of what linkers do with relocations, of the section of constants, and of trees of entries: their two sections,
//! and their content where a linker places it.
#![tactic(auto)]

#[cfg(test)]
mod constants;
#[cfg(test)]
mod entry_sections;
#[cfg(test)]
mod fields;
#[cfg(test)]
mod halves;
#[cfg(test)]
mod objects;
#[cfg(test)]
mod placed;
#[cfg(test)]
mod rows;
#[cfg(test)]
mod sections;
#[cfg(test)]
mod tree;
