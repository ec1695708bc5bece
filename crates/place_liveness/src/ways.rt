//! From the start of which blocks liveness goes on to which.

ghost use Rattle.std.specs.Prelude.{◌≡◌, ℕ, ◌<◌, ◌∷◌, [], length, IfOk, OnOk, Contains};
ghost use Rattle.pass_liveness.specs.mir_func.Sound.{ids_of};
ghost use Rattle.pass_liveness.specs.mir_func.Successors.{numbers_of};
ghost use Rattle.graph_spread.specs.dataflow.Graph.{AreBlocks, IsGraph};
ghost use Rattle.place_liveness.specs.Alone.{AreWaysDown, AreWaysUp, AreListed};

use graph_spread::dataflow_crate::graph::{Ways, predecessors};
use pass_liveness::index::Index;
use pass_liveness::live::names_of;
use pass_liveness::mir_func_crate::func::Func;
use pass_liveness::mir_func_crate::successors::Successors;
use pass_liveness::rv64_instr_crate::base_ids_crate::function_ids::BlockId;
use std::alloc::{AllocError, Global};

/// For each block of a function those from which control may go to it, by index. The error is out of memory.
pub fn ways_up(alloc: Global, f: &Func) -> Result<Vec<Ways>, AllocError>
    ensures { IfOk result (λ ways. AreWaysUp f.now.blocks ways.items) }
{
    let names = names_of(alloc, f)?;
    let ways = ways_down(alloc, f, &names.blocks)?;
    predecessors(alloc, ways.as_slice())
}

/// The successors of each block of a function, by index. `ids` are the blocks' numbers. The error is out of memory.
pub fn ways_down(alloc: Global, f: &Func, ids: &Index) -> Result<Vec<Ways>, AllocError>
    requires { ids.now ≡ ids_of f.now.blocks }
    ensures few { IfOk result (λ ways. length ways.items < 4294967296) }
    ensures graph { IfOk result (λ ways. IsGraph ways.items) }
    ensures down { IfOk result (λ ways. AreWaysDown f.now.blocks ways.items) }
{
    let count = f.blocks.len();
    let mut ways = Vec::with_capacity(alloc, count)?;
    for block in 0..count {
        let mut indices = Ways::new(alloc);
        add_all(&mut indices, ids, f.successors(block))?;
        ways.push(indices)?;
    }
    Ok(ways)
}

/// Adds the indices of a block's successors.
fn add_all(ways: &mut Ways, ids: &Index, successors: Successors) -> Result<(), AllocError>
    requires few { length ids.now < 4294967296 }
    requires within { AreBlocks (length ids.now) ways.old }
    ensures within { OnOk result (AreBlocks (length ids.now) ways.new) }
    ensures listed { OnOk result (AreListed ids.now (numbers_of successors) ways.new) }
{
    match successors {
        Successors::Nowhere => Ok(()),
        Successors::One(n) => add(ways, ids, n),
        Successors::Two(m, n) => add_two(ways, ids, m, n),
    }
}

/// Adds the indices of two blocks, if there are such blocks.
fn add_two(ways: &mut Ways, ids: &Index, m: BlockId, n: BlockId) -> Result<(), AllocError>
    requires few { length ids.now < 4294967296 }
    requires within { AreBlocks (length ids.now) ways.old }
    ensures within { OnOk result (AreBlocks (length ids.now) ways.new) }
    ensures listed { OnOk result (AreListed ids.now (m ∷ n ∷ []) ways.new) }
{
    add(ways, ids, m)?;
    add(ways, ids, n)?;
    Ok(())
}

/// Adds the index of a block, if there is one.
fn add(ways: &mut Ways, ids: &Index, n: BlockId) -> Result<(), AllocError>
    requires few { length ids.now < 4294967296 }
    requires within { AreBlocks (length ids.now) ways.old }
    ensures within { OnOk result (AreBlocks (length ids.now) ways.new) }
    ensures kept { OnOk result ((m : ℕ) → Contains ways.old m → Contains ways.new m) }
    ensures listed { OnOk result (AreListed ids.now (n ∷ []) ways.new) }
{
    match ids.find(n.number()) {
        None => Ok(()),
        Some(found) => {
            let index = found as u32;
            ways.push(index)
        }
    }
}
