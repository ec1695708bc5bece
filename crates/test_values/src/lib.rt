//! Tests that only calls within the program show: value numbers at joins and at points, queries of them, live-in values
//! of places, and the locations of parts. Location lists of texts are in the rows of `test_program`.
#![tactic(auto)]

#[cfg(test)]
mod chains;
#[cfg(test)]
mod joins;
#[cfg(test)]
mod listed;
#[cfg(test)]
mod places;
#[cfg(test)]
mod points;
#[cfg(test)]
mod text;
#[cfg(test)]
mod variables;
