//! The declarations in a machine function's MIR document: its name, stack entries, debug value substitutions and
//! constants, and what it exposes.
//!
//! Each has its own key in the document, beside `body`. The name is one line. Each list is a stream of tokens over
//! the lines of its key, `- { id: 0, size: 8 }` and so on; it is parsed up to the first token that can't come next,
//! and then each entry is judged by its fields. If a function is refused, the refusal that is reported is the first
//! of all.
#![tactic(auto)]

pub use mir_substitution as mir_substitution_crate;

mod constant_line;
mod constant_value;
pub mod constants;
pub mod declarations;
mod entry;
pub mod exposure;
mod field;
pub mod fixed;
mod list;
mod name;
pub mod stack;
mod stream;
mod substitutions;
