//! The live-in values of all blocks of a function with its frame.

ghost use Rattle.std.specs.Prelude.{◌≡◌, ◌≤◌, ◌<◌, ◌+◌, ◌*◌, ℕ, IfOk, IsTrue, [], length, map, slice_get, All, Contains, Some};
ghost use Rattle.mir_func.specs.Graph.{framed_program};
ghost use Rattle.mir_func.specs.Resolve.{resolve};
ghost use Rattle.value_solver.specs.declared.entry.BlockEntry.{BlockEntry};
ghost use Rattle.value_solver.specs.declared.tracked.Tracked.TheVariants.{Pair};
ghost use Rattle.value_solver.specs.Entry.{thing, IsEntry};
ghost use Rattle.value_proof.specs.PreferredByClass.{AreThingsOf};
ghost use Rattle.value_live_ins.specs.Gathering.{KnowsBlocks};
ghost use Rattle.value_live_ins.specs.steps.Framing.{AreBlocks};
ghost use Rattle.value_live_ins.specs.Known.{AreMachineValues, AreValuesForLists};
ghost use Rattle.value_live_ins.specs.Walking.{AreTracked};
ghost use Rattle.value_tracker.specs.Things.{AreThings};

use crate::changes::{Tracking, own_classes};
use crate::flows::flows_of;
use crate::opening::start_entry;
use crate::things::{TrackedValues, things_of};
use crate::ways::indices_of;
use mir_func::block::Block;
use mir_func::debug_substitution::OperandPair;
use mir_func::framed::Framed;
use mir_substitution::substitutions::Substitutions;
use std::alloc::{AllocError, Global};
use value_solver::entry::BlockEntries;
use value_solver::solve::{Solved, solve as solve_flows};
use value_solver::tracked::{Tracked, TrackedItems};
use value_tracker::index::index_of;
use value_tracker::part_list::PartList;

/// The limit on entities and on blocks, exclusive: memory runs out before it.
const MOST: usize = (1 << 32) - 1;

/// The value analysis of a function with its frame (LLVM: the live-in values of InstrRefBasedLDV).
#[derive(Drop)]
pub struct MachineValues {
    /// The parts of variables that its debug values assign, in order of first appearance.
    pub variables: PartList,
    /// All tracked entities: these parts, registers but x0 and x2, and the slots, pairs and constants that its items
    /// copy.
    pub things: TrackedItems,
    /// The live-in values of each block. Two entities have the same class there if and only if on every path to the
    /// block's start they have the same token or both have none.
    pub entries: BlockEntries,
    /// The number of sweeps over the blocks, including the last one, in which nothing changed.
    pub sweeps: u64,
}

/// The entries of all blocks, over these tracked entities.
fn solve_over(
    alloc: Global,
    blocks: &[Block],
    subs: &Substitutions,
    variables: &PartList,
    things: &[Tracked],
) -> Result<Solved, AllocError>
    requires few { length things.now < 4294967295 }
    requires few_blocks { length blocks.now < 4294967295 }
    requires blocks { AreBlocks blocks.now }
    requires things { AreThings variables.now things.now }
    requires tracked { AreTracked things.now }
    requires variables { length variables.now ≤ length things.now }
    requires knows { KnowsBlocks (map thing things.now) (resolve subs.now) blocks.now }
    ensures entries { IfOk result (λ s. (b : ℕ) (e : BlockEntry) → slice_get s.entries b ≡ Some e →
        IsEntry (framed_program blocks.now (resolve subs.now)) things.now b e) }
    ensures for_all { IfOk result (λ s. length s.entries ≡ length blocks.now) }
    ensures sweeps { IfOk result (λ s. s.sweeps ≤ 2 * length things.now * length blocks.now + 1) }
{
    let index = index_of(alloc, things)?;
    let settled = own_classes(alloc, things.len())?;
    let tracking = Tracking {
        variables,
        things,
        index: &index,
        settled: settled.as_slice(),
        subs,
    };
    let indices = indices_of(alloc, blocks)?;
    let flows = flows_of(alloc, &tracking, &indices, blocks)?;
    let start = start_entry(alloc, things)?;
    solve_flows(alloc, &start, flows.as_slice())
}

/// The live-in values of each block; without `whole` no pairs are tracked that items above define in the same block.
fn solve_things(
    alloc: Global,
    framed: &Framed,
    subs: &Substitutions,
    asked: &[OperandPair],
    whole: bool,
) -> Result<MachineValues, AllocError>
    ensures values { IfOk result (AreValuesForLists framed.now.blocks (resolve subs.now) asked.now) }
    ensures whole { IfOk result (λ v. IsTrue whole →
        AreThingsOf (framed_program framed.now.blocks (resolve subs.now)) (map thing v.things)) }
    ensures asked { IfOk result (λ v. All (λ q. Contains v.things (Pair q)) asked.now) }
{
    let blocks = framed.blocks.as_slice();
    let TrackedValues { variables, things } = things_of(alloc, blocks, subs, asked, whole)?;
    if things.len() >= MOST || blocks.len() >= MOST {
        return Err(AllocError);
    }
    let solved = solve_over(alloc, blocks, subs, &variables, things.as_slice())?;
    let Solved { entries, sweeps } = solved;
    Ok(MachineValues {
        variables,
        things,
        entries,
        sweeps,
    })
}

/// The live-in values of each block of a function with its frame, over all paths. Debug values refer to pairs through
/// the substitutions. Only those pairs are tracked that debug values refer to. The error is out of memory.
pub fn solve(
    alloc: Global,
    framed: &Framed,
    subs: &Substitutions,
) -> Result<MachineValues, AllocError>
    ensures { IfOk result (AreMachineValues framed.now.blocks (resolve subs.now) []) }
{
    solve_asking(alloc, framed, subs, &[])
}

/// The same, with these pairs tracked too.
pub fn solve_asking(
    alloc: Global,
    framed: &Framed,
    subs: &Substitutions,
    asked: &[OperandPair],
) -> Result<MachineValues, AllocError>
    ensures values { IfOk result (AreMachineValues framed.now.blocks (resolve subs.now) asked.now) }
    ensures asked { IfOk result (λ v. All (λ q. Contains v.things (Pair q)) asked.now) }
{
    let values = solve_things(alloc, framed, subs, asked, true)?;
    Ok(values)
}

/// The same as `solve`, as far as location lists need it: a pair isn't tracked if debug values refer to it only below
/// items of their own block that define it. There an item's location tells its value. The error is out of memory.
pub fn solve_for_lists(
    alloc: Global,
    framed: &Framed,
    subs: &Substitutions,
) -> Result<MachineValues, AllocError>
    ensures { IfOk result (AreValuesForLists framed.now.blocks (resolve subs.now) []) }
{
    let values = solve_things(alloc, framed, subs, &[], false)?;
    Ok(values)
}
