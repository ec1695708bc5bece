//! Tests of the parser, where no run of the program shows it: tokens with their positions and their values, the forms
//! of body lines, documents with their line numbers, the fields of metadata nodes, programs in inputs that fail or are too
//! long, and limits that take thousands of lines. What a run shows is in the rows of `test_program`.
#![tactic(auto)]

#[cfg(test)]
mod body_lines;
#[cfg(test)]
mod documents;
#[cfg(test)]
mod inputs;
#[cfg(test)]
mod lexemes;
#[cfg(test)]
mod limits;
#[cfg(test)]
mod metadata;
#[cfg(test)]
mod reading;
#[cfg(test)]
mod text;
#[cfg(test)]
mod tokens;
