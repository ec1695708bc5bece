//! The nodes that were reached so far, and those of them that wait to be left.

ghost use Rattle.std.specs.Prelude.{◌≡◌, ◌<◌, length, true, false, slice_index_or, slice_set, OnOk, All, Contains};
ghost use Rattle.graph_spread.specs.Spread.{Reaching};

use std::alloc::AllocError;

/// Whether a node is in a set.
fn is_in(nodes: &[bool], node: usize) -> bool
    ensures { result ≡ slice_index_or nodes.now node false }
{
    match nodes.get(node) {
        Some(set) => *set,
        None => false,
    }
}

/// Adds a node to a set.
fn put_in(nodes: &mut Vec<bool>, node: usize)
    requires { node < length nodes.old.items }
    ensures { nodes.new.items ≡ slice_set nodes.old.items node true }
{
    nodes[node] = true;
}

/// Reaches a node: if it wasn't reached before, it waits.
pub fn reach(reached: &mut Vec<bool>, waiting: &mut Vec<u32>, node: u32) -> Result<(), AllocError>
    requires { node < length reached.old.items }
    ensures { OnOk result (Reaching (λ n. node ≡ n)
        reached.old.items reached.new.items waiting.old.items waiting.new.items) }
{
    let index = node as usize;
    if is_in(reached.as_slice(), index) {
        return Ok(());
    }
    put_in(reached, index);
    waiting.push(node)?;
    Ok(())
}

/// Reaches nodes.
pub fn reach_all(
    reached: &mut Vec<bool>,
    waiting: &mut Vec<u32>,
    nodes: &[u32],
) -> Result<(), AllocError>
    requires { All (λ n. n < length reached.old.items) nodes.now }
    ensures { OnOk result (Reaching (λ n. Contains nodes.now n)
        reached.old.items reached.new.items waiting.old.items waiting.new.items) }
{
    for node in nodes {
        reach(reached, waiting, *node)?;
    }
    Ok(())
}
