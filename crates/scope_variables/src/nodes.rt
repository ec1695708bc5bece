//! What nodes of the debug metadata are.

ghost use Rattle.std.specs.Prelude.{◌≡◌};
ghost use Rattle.std.specs.Option.{option_copied};
ghost use Rattle.scope_variables.specs.Nodes.{arg_at, file_block_at, is_block, variable_at};

use base_ids::metadata::NodeId;
use read_debug_nodes::metadata::DebugMetadata;
use read_debug_nodes::node::{DebugNode, DebugVariable};

/// The variable that a node is.
pub fn variable_at(debug: &DebugMetadata, node: NodeId) -> Option<&DebugVariable>
    ensures { option_copied result ≡ variable_at debug.now node }
{
    match debug.node(node)? {
        DebugNode::Variable(variable) => Some(variable),
        _ => None,
    }
}

/// The parameter that a variable is, counted from 1, and 0 for one that is none.
pub fn arg_at(debug: &DebugMetadata, node: NodeId) -> u32
    ensures { result ≡ arg_at debug.now node }
{
    match variable_at(debug, node) {
        Some(variable) => variable.arg,
        None => 0,
    }
}

/// The scope of a node that is a `DILexicalBlockFile`, and `None` of any other one.
pub fn file_block_at(debug: &DebugMetadata, node: NodeId) -> Option<Option<NodeId>>
    ensures { result ≡ file_block_at debug.now node }
{
    match debug.node(node)? {
        DebugNode::FileBlock(scope) => Some(*scope),
        _ => None,
    }
}

/// Whether a node is a lexical block.
pub fn is_block(debug: &DebugMetadata, node: Option<NodeId>) -> bool
    ensures { result ≡ is_block debug.now node }
{
    let Some(node) = node else {
        return false;
    };
    match debug.node(node) {
        Some(DebugNode::Block(_)) => true,
        _ => false,
    }
}
