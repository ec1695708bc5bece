//! Tests of types: which of them stand, and their entries.
#![tactic(auto)]

#[cfg(test)]
mod entries;
#[cfg(test)]
mod rows;
#[cfg(test)]
mod shapes;
#[cfg(test)]
mod standing;
#[cfg(test)]
mod units;
