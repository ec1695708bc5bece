//! Sets of variables and fragments of variables.

ghost use Rattle.std.specs.Prelude.{◌≡◌, OnOk, OnErr};
ghost use Rattle.mir_func.specs.Variables.{is_same, is_same_node};
ghost use Rattle.read_body.specs.FirstUseOrder.{is_known, known};

use base_ids::metadata::NodeId;
use base_list::List;
use mir_func::variable::{VarId, are_same_bytes};
use std::alloc::AllocError;

/// Variables and fragments of variables, each once, in the order of first insertion.
pub type Variables = List<VarId>;

/// Whether two optional nodes are the same.
fn is_same_node(one: Option<NodeId>, other: Option<NodeId>) -> bool
    ensures { result ≡ is_same_node one other }
{
    match (one, other) {
        (None, None) => true,
        (Some(one), Some(other)) => one.number() == other.number(),
        _ => false,
    }
}

/// Whether two are the same fragment of the same variable.
fn is_same(one: &VarId, other: &VarId) -> bool
    ensures { result ≡ is_same one.now other.now }
{
    one.node.number() == other.node.number()
        && is_same_node(one.inlined_at, other.inlined_at)
        && are_same_bytes(&one.fragment, &other.fragment)
}

/// Whether a variable, or a fragment of one, is in the set.
fn is_known(variable: &VarId, variables: &[VarId]) -> bool
    ensures { result ≡ is_known variable.now variables.now }
{
    variables.iter().any(|other| is_same(variable, other))
}

/// Inserts a variable, or a fragment of one. If memory runs out, the set is unchanged.
pub fn meet(variables: &mut Variables, variable: &VarId) -> Result<(), AllocError>
    ensures ok { OnOk result (variables.new ≡ known variable.now variables.old) }
    ensures err { OnErr result (variables.new ≡ variables.old) }
{
    if is_known(variable, variables.as_slice()) {
        return Ok(());
    }
    variables.push(*variable)
}
