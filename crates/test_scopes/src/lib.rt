//! Tests of the scopes of functions: which have code, in which others they are, the addresses of their code, and the
//! variables that stand in them.
#![tactic(auto)]

#[cfg(test)]
mod items_of_text;
#[cfg(test)]
mod scopes_of_text;
