//! Variables of scopes.

use base_ids::metadata::NodeId;
use base_list::List;

/// A parameter or a variable of a scope.
#[derive(Clone, Copy, Debug, PartialEq, Eq)]
pub struct ScopeVariable {
    /// Its `DILocalVariable` node.
    pub node: NodeId,
    /// Its location list, by its index among those of the function, and none for a variable without one.
    pub list: Option<usize>,
}

/// The variables of a scope, in order.
pub type ScopeVariables = List<ScopeVariable>;
