//! The variables of a function that have location lists.

ghost use Rattle.std.specs.Prelude.{◌≡◌, List, IfOk};
ghost use Rattle.indexmap.specs.IndexMap.{get};
ghost use Rattle.mir_func.specs.declared.variable.VarId.{VarId};
ghost use Rattle.scope_variables.specs.steps.Marked.{is_pair, pair, AreMarked};

use base_ids::metadata::NodeId;
use indexmap::IndexMap;
use mir_func::variable::VarId;
use std::alloc::{AllocError, Global};

/// The location lists of variables.
#[derive(Drop)]
pub struct MarkedVariables {
    /// The index of the list of a variable, by its node and the node that it is inlined at.
    pub lists: IndexMap<(u32, Option<u32>), usize>,
}

impl MarkedVariables {
    /// The lists of these variables, in their order. The error is out of memory.
    pub fn new(alloc: Global, variables: &[VarId]) -> Result<MarkedVariables, AllocError>
        ensures { IfOk result (AreMarked variables.now) }
    {
        let mut lists = IndexMap::new(alloc);
        let mut index = variables.len();
        'variables: while index > 0 {
            index -= 1;
            lists.insert(
                pair(variables[index].node, variables[index].inlined_at),
                index,
            )?;
        }
        Ok(MarkedVariables { lists })
    }

    /// The list of a variable.
    pub fn list(&self, node: NodeId, inlined_at: Option<NodeId>) -> Option<usize>
        ensures { result ≡ get is_pair self.now.lists (pair node inlined_at) }
    {
        self.lists.get(&pair(node, inlined_at)).copied()
    }
}

/// The numbers of a node and of the node that it is inlined at.
fn pair(node: NodeId, inlined_at: Option<NodeId>) -> (u32, Option<u32>)
    ensures { result ≡ pair node inlined_at }
{
    (node.number(), number(inlined_at))
}

/// The number of a node, if there is one.
fn number(node: Option<NodeId>) -> Option<u32>
    ensures { result ≡ node }
{
    node.map(|n| n.number())
}
