//! Items of what stands inside a function.

use base_list::List;
use scope_variables::variable::ScopeVariable;

/// An item of what stands inside a function, in prefix order. A scope is given by its index.
#[derive(Clone, Copy, Debug, PartialEq, Eq)]
pub enum ScopeItem {
    /// A parameter or a variable.
    Variable(ScopeVariable),
    /// A scope begins.
    Open(usize),
    /// The innermost scope ends.
    End,
}

/// What stands inside a function.
pub type ScopeItems = List<ScopeItem>;
