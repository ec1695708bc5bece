//! Tests that only calls within the program show: LEB128 numbers, readers of sections on damaged input, writers at
//! bounds that no text reaches, the sections of a program without functions, and the object that a linker places. Whole
//! sections of texts are in the rows of `test_program`.
#![tactic(auto)]

#[cfg(test)]
mod changed;
#[cfg(test)]
mod entry_tree;
#[cfg(test)]
mod frame_rows;
#[cfg(test)]
mod frames;
#[cfg(test)]
mod leb128;
#[cfg(test)]
mod line_tables;
#[cfg(test)]
mod linkable;
#[cfg(test)]
mod linkable_tables;
#[cfg(test)]
mod loaded;
#[cfg(test)]
mod location_lists;
#[cfg(test)]
mod no_functions;
#[cfg(test)]
mod objects;
#[cfg(test)]
mod prologue_sections;
#[cfg(test)]
mod range_lists;
#[cfg(test)]
mod source_lines;
#[cfg(test)]
mod symbol_tables;
#[cfg(test)]
mod table;
