//! Types by the numbers of their nodes.

ghost use Rattle.std.specs.Prelude.{◌≡◌, ◌<◌, length};
ghost use Rattle.std.specs.Option.{option_map};
ghost use Rattle.read_types.specs.Indices.{Ascends, index_in, index_or_past};

use base_list::List;
use read_debug_nodes::read_metadata_crate::rv64_instr_crate::base_ids_crate::metadata::NodeId;
use std::marker::Model;

/// The nodes of types, ascending, fewer than 2^32. The index of a type is its place among them. A contract sees their
/// list.
#[derive(Drop)]
pub struct TypeNodes {
    nodes: List<NodeId>,
}

impl Model for TypeNodes {
    ghost use Rattle.std.specs.Prelude.{List, ℕ, length, ◌<◌};
    ghost use Rattle.read_types.specs.Indices.{Ascends};

    ghost Value = { List ℕ };

    ghost view = { λ t. t.nodes };

    ghost invariant = { λ t. Ascends t.nodes × (length t.nodes < 4294967296) };
}

impl TypeNodes {
    /// These nodes.
    pub(crate) fn new(nodes: List<NodeId>) -> TypeNodes
        requires ascends { Ascends nodes }
        requires few { length nodes < 4294967296 }
        ensures { result ≡ nodes }
    {
        TypeNodes { nodes }
    }

    /// The nodes, ascending.
    pub fn as_slice(&self) -> &[NodeId]
        ensures { result.now ≡ self.now }
    {
        self.nodes.as_slice()
    }

    /// The index of the type that a node is, and one past them all if it is none. The time is logarithmic.
    pub fn index(&self, node: NodeId) -> u32
        ensures { result ≡ index_in self.now node }
    {
        let nodes = self.nodes.as_slice();
        match nodes.binary_search(&node) {
            Ok(index) => index as u32,
            Err(_) => nodes.len() as u32,
        }
    }

    /// The index of the type of a node that may be missing: none for void.
    pub fn index_of(&self, node: Option<NodeId>) -> Option<u32>
        ensures { result ≡ option_map (index_in self.now) node }
    {
        match node {
            Some(node) => Some(self.index(node)),
            None => None,
        }
    }

    /// The index of the type of a node, and one past them all for a missing node.
    pub(crate) fn index_or_past(&self, node: Option<NodeId>) -> u32
        ensures { result ≡ index_or_past self.now node }
    {
        match node {
            Some(node) => self.index(node),
            None => self.nodes.len() as u32,
        }
    }
}
