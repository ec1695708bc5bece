//! The types of a program as its debug metadata has them: they name one another. Which of them a debugger can be told
//! is a question of the walks between them.
#![tactic(auto)]

pub mod laws;
pub mod shape;
pub mod sizes;
pub mod standing;
mod steps;
