//! Steps of a walk over the scopes of a function.

/// A step of a walk over scopes in prefix order. A scope is given by its index.
#[derive(Clone, Copy, Debug, PartialEq, Eq)]
pub enum ScopeStep {
    /// A scope begins.
    Open(usize),
    /// A scope ends.
    Close(usize),
}
