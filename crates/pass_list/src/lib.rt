//! Pass names and pass lists: the passes that the program can run, and lists in which each is at most once, in the
//! order in which they run. A new pass is one variant of `PassKind`, with its name.
#![tactic(auto)]

pub mod kind;
pub mod list;
pub mod text;
