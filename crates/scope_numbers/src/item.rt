//! Items with the numbers of their lists.

use base_ids::metadata::NodeId;
use base_list::List;

/// A parameter or a variable.
#[derive(Clone, Copy, Debug, PartialEq, Eq)]
pub struct NumberedVariable {
    /// Its `DILocalVariable` node.
    pub node: NodeId,
    /// The number of its location list, and none for a variable without one.
    pub list: Option<u64>,
}

/// A scope.
#[derive(Clone, Copy, Debug, PartialEq, Eq)]
pub struct NumberedScope {
    /// Its index among the scopes of the function.
    pub index: usize,
    /// The number of its range list.
    pub list: u64,
}

/// An item of what stands inside a function, in prefix order.
#[derive(Clone, Copy, Debug, PartialEq, Eq)]
pub enum NumberedItem {
    /// A parameter or a variable.
    Variable(NumberedVariable),
    /// A scope begins.
    Open(NumberedScope),
    /// The innermost scope ends.
    End,
}

/// What stands inside a function.
pub type NumberedItems = List<NumberedItem>;

/// A location list.
#[derive(Clone, Copy, Debug, PartialEq, Eq)]
pub struct FunctionList {
    /// The index of the function.
    pub function: usize,
    /// The index of the list among those of the function.
    pub list: usize,
}

/// Location lists, in the order of their numbers.
pub type FunctionLists = List<FunctionList>;
