//! Live intervals and masks of a function.

ghost use Rattle.std.specs.Prelude.{◌≡◌, ◌+◌, ◌<◌, ◌≤◌, ◌^◌, [], IfOk, OnOk, length, reverse};
ghost use Rattle.pass_trait.specs.Sizes.{item_count};
ghost use Rattle.mir_func.specs.Sound.{IsSound, AllItems, SlotsIn, ids_of};
ghost use Rattle.pass_liveness.specs.Liveness.{AreLiveSets};
ghost use Rattle.scan_liveness.specs.Described.{Describes};
ghost use Rattle.scan_liveness.specs.Liveness.{IsLiveness};
ghost use Rattle.scan_liveness.specs.Registers.{greatest_register};

use crate::extents::Extent;
use crate::intervals::intervals_of;
use crate::registers::greatest_register;
use crate::walk::push_blocks;
use mir_func::func::Func;
use mir_type_facts::blocks::know_forms;
use pass_liveness::live::{empty_sets, names_of};
use pass_liveness::names::SlotAndBlockNumbers;
use pass_liveness::set::PlaceSet;
use scan_intervals::blocked::BlockedRegisters;
use scan_intervals::interval::LiveIntervals;
use std::alloc::{AllocError, Global};

/// What linear scan register allocation needs of a function's liveness.
#[derive(Drop)]
pub struct ScanLiveness {
    /// The live intervals of the virtual registers, in the order of allocation.
    pub intervals: LiveIntervals,
    /// The physical registers that each code blocks.
    pub blocked: BlockedRegisters,
}

/// The live intervals and masks of a function. The error is out of memory.
pub fn liveness_of(alloc: Global, f: &Func) -> Result<ScanLiveness, AllocError>
    requires { item_count f.now < 2 ^ 31 }
    ensures { IfOk result (λ l. IsLiveness f.now l.intervals l.blocked.masks.items) }
{
    know_forms(f.blocks.as_slice());
    let names = names_of(alloc, f)?;
    let starts = live_starts(alloc, &names, f)?;
    let most = greatest_register(f.blocks.as_slice());
    let mut masks = Vec::new(alloc);
    let mut extents = no_extents(alloc, extent_count(most))?;
    push_blocks(
        &names,
        starts.as_slice(),
        f.blocks.as_slice(),
        &mut masks,
        &mut extents,
    )?;
    let intervals = intervals_of(alloc, extents.as_slice(), masks.len())?;
    turn(&mut masks);
    Ok(ScanLiveness {
        intervals,
        blocked: BlockedRegisters { masks },
    })
}

/// Turns the masks round.
fn turn(masks: &mut Vec<u32>)
    ensures { masks.new.items ≡ reverse masks.old.items }
{
    masks.reverse();
}

/// How many virtual registers there are up to one.
fn extent_count(most: u32) -> usize
    requires { most < 4128 }
    ensures few { result ≤ 4096 }
    ensures all { most < result + 32 }
{
    (most as usize + 1).saturating_sub(32)
}

/// No extents so far, of so many registers.
fn no_extents(alloc: Global, count: usize) -> Result<Vec<Option<Extent>>, AllocError>
    ensures long { IfOk result (λ extents. length extents.items ≡ count) }
    ensures none { IfOk result (λ extents. Describes [] [] extents.items) }
{
    let mut extents = Vec::with_capacity(alloc, count)?;
    for _ in 0..count {
        extents.push(None)?;
    }
    Ok(extents)
}

/// What is live at the starts of blocks.
fn live_starts(
    alloc: Global,
    names: &SlotAndBlockNumbers,
    f: &Func,
) -> Result<Vec<PlaceSet>, AllocError>
    requires slots { names.now.slots ≡ f.now.slots }
    requires blocks { names.now.blocks ≡ ids_of f.now.blocks }
    ensures live { IfOk result (λ starts. AreLiveSets f.now (record {
      slots = names.now.slots;
      blocks = names.now.blocks;
      starts = starts.items;
    })) }
    ensures known { OnOk result (AllItems (λ i. SlotsIn names.now.slots i.kind) f.now.blocks) }
{
    let mut starts = empty_sets(alloc, f.blocks.len())?;
    names.settle(alloc, f, &mut starts)?;
    Ok(starts)
}
