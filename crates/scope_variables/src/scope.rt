//! The scopes that variables are declared in.

ghost use Rattle.std.specs.Prelude.{◌≡◌};
ghost use Rattle.scope_variables.specs.Scope.{past, scope_within};

use crate::nodes::{file_block_at, variable_at};
use base_ids::metadata::NodeId;
use read_debug_nodes::metadata::DebugMetadata;

/// The scope that a node stands for, past `DILexicalBlockFile` nodes, which are fewer than so many. There is none if
/// they are more, as where they lead round, or if one of them has no scope.
fn past(debug: &DebugMetadata, most: usize, node: NodeId) -> Option<NodeId>
    ensures { result ≡ past debug.now most node }
{
    let mut left = most;
    let mut at = node;
    'nodes: while left > 0 {
        left -= 1;
        let Some(scope) = file_block_at(debug, at) else {
            return Some(at);
        };
        let Some(scope) = scope else {
            return None;
        };
        at = scope;
    }
    None
}

/// The scope that a variable is declared in, past fewer than so many `DILexicalBlockFile` nodes.
pub fn scope_within(debug: &DebugMetadata, most: usize, node: NodeId) -> Option<NodeId>
    ensures { result ≡ scope_within debug.now most node }
{
    let scope = variable_at(debug, node)?.scope?;
    past(debug, most, scope)
}
