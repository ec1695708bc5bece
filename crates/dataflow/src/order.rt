//! The order in which a dataflow analysis visits blocks.

ghost use Rattle.std.specs.Prelude.{ℕ, ◌<◌, length, IfOk, All, Contains};
ghost use Rattle.dataflow.specs.Graph.{IsOrder};

use crate::graph::Ways;
use std::alloc::{AllocError, Global};

/// The blocks in post-order of a depth-first search from the first one: a block comes after its successors, except over
/// back edges. The unreachable blocks come last. The error is out of memory.
pub fn post_order(alloc: Global, successors: &[Ways]) -> Result<Vec<u32>, AllocError>
    requires { length successors.now < 4294967296 }
    ensures { IfOk result (λ order. IsOrder (length successors.now) order.items) }
{
    let ranks = ranks(alloc, successors)?;
    let mut order = in_text_order(alloc, successors.len() as u32)?;
    let ranks = ranks.as_slice();
    order.sort_by_key(|block| ranks.get(*block as usize).copied())?;
    Ok(order)
}

/// The blocks in the reverse of post-order: a block comes after its predecessors, except over back edges. The
/// unreachable blocks come first. The error is out of memory.
pub fn reverse_post_order(alloc: Global, successors: &[Ways]) -> Result<Vec<u32>, AllocError>
    requires { length successors.now < 4294967296 }
    ensures { IfOk result (λ order. IsOrder (length successors.now) order.items) }
{
    let mut order = post_order(alloc, successors)?;
    order.reverse();
    Ok(order)
}

/// The blocks in the order of the text.
fn in_text_order(alloc: Global, blocks: u32) -> Result<Vec<u32>, AllocError>
    ensures within { IfOk result (λ order. All (λ b. b < blocks) order.items) }
    ensures all { IfOk result (λ order. (b : ℕ) → b < blocks → Contains order.items b) }
{
    let mut order = Vec::with_capacity(alloc, blocks as usize)?;
    for block in 0..blocks {
        order.push(block)?;
    }
    Ok(order)
}

/// The post-order rank of each block; the greatest number if it is unreachable.
fn ranks(alloc: Global, successors: &[Ways]) -> Result<Vec<u32>, AllocError> {
    let mut ranks = Vec::with_capacity(alloc, successors.len())?;
    let mut seen = Vec::with_capacity(alloc, successors.len())?;
    let mut steps = 1usize;
    for ways in successors {
        ranks.push(u32::MAX)?;
        seen.push(false)?;
        steps = steps.saturating_add(ways.len()).saturating_add(1);
    }
    let mut stack: Vec<(u32, usize)> = Vec::new(alloc);
    stack.push((0, 0))?;
    let mut rank = 0u32;
    for _ in 0..steps.saturating_mul(2) {
        let Some((block, way)) = stack.pop() else {
            break;
        };
        let Some(ways) = successors.get(block as usize) else {
            continue;
        };
        match ways.as_slice().get(way) {
            None => {
                if let Some(known) = ranks.get_mut(block as usize) {
                    *known = rank;
                }
                rank = rank.saturating_add(1);
            }
            Some(next) => {
                stack.push((block, way + 1))?;
                if let Some(known) = seen.get_mut(*next as usize) {
                    if !*known {
                        *known = true;
                        stack.push((*next, 0))?;
                    }
                }
            }
        }
    }
    Ok(ranks)
}
