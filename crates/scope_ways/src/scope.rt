//! Scopes of a function.

use base_ids::metadata::NodeId;

/// A scope where code is (LLVM: `LexicalScope`): a subprogram or a lexical block, and where it was inlined.
#[derive(Clone, Copy, Debug, PartialEq, Eq)]
pub struct LexicalScope {
    /// The node of the subprogram or the lexical block.
    pub node: Option<NodeId>,
    /// The node of the location of the call through which it was inlined, and none in the function's own code.
    pub inlined_at: Option<NodeId>,
}

/// What is around a scope.
#[derive(Clone, Copy, Debug, PartialEq, Eq)]
pub enum Outer {
    /// Another scope.
    Scope(LexicalScope),
    /// Nothing of the function: it is the function's own subprogram.
    Function,
    /// Nothing that is known: a node isn't readable.
    Unknown,
}
