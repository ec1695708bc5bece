//! The order of the variables of a scope.

ghost use Rattle.std.specs.Prelude.{◌≡◌, map, OnOk};
ghost use Rattle.scope_variables.specs.Order.{in_order, key, rank, BEHIND_PARAMETERS};

use crate::nodes::arg_at;
use base_ids::metadata::NodeId;
use read_debug_nodes::metadata::DebugMetadata;
use std::alloc::AllocError;
use std::collections::BTreeSet;

/// The rank of a variable that is no parameter: that of each parameter is below it.
const BEHIND_PARAMETERS: u64 = 4_294_967_296;

/// The rank of a variable: parameters by their number, and behind them the others.
fn rank(arg: u32) -> u64
    ensures { result ≡ rank arg }
{
    if arg == 0 {
        BEHIND_PARAMETERS
    } else {
        u64::from(arg)
    }
}

/// A variable with its rank.
fn key(debug: &DebugMetadata, node: NodeId) -> (u64, u32)
    ensures { result ≡ key debug.now node }
{
    (rank(arg_at(debug, node)), node.number())
}

/// Inserts variables into an ordered list.
pub fn insert_all(
    debug: &DebugMetadata,
    keys: &mut BTreeSet<(u64, u32)>,
    nodes: &[NodeId],
) -> Result<(), AllocError>
    ensures { OnOk result (keys.new.keys ≡ in_order keys.old.keys (map (key debug.now) nodes.now)) }
{
    for node in nodes {
        keys.insert(key(debug, *node))?;
    }
    Ok(())
}
