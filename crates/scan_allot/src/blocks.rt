//! The blocks of a function in which virtual registers are replaced.

ghost use Rattle.std.specs.Prelude.{◌≡◌, ◌≤◌, ◌<◌, ◌++◌, List, [], IfOk, OnOk, Some, length, slice_get};
ghost use Rattle.mir_func.specs.declared.block.Block.{Block};
ghost use Rattle.mir_func.specs.declared.debug_substitution.DebugSubstitution.{DebugSubstitution};
ghost use Rattle.scan_stale.specs.scan_choice.Given.{given_by};
ghost use Rattle.scan_debug.specs.scan_rule.Rewrite.{block_now, blocks_now};
ghost use Rattle.scan_stale.specs.Sets.{starts_of, AreStaleSets};
ghost use Rattle.scan_stale.specs.Written.{AreReal};
ghost use Rattle.scan_allot.specs.Allotted.{AreAllotted};
ghost use Rattle.scan_allot.specs.Losses.{lost_items, lost_blocks};
ghost use Rattle.scan_allot.specs.Silent.{silent_by};

use crate::items::items_now;
use crate::named::NamedFunction;
use mir_func::block::{Block, Blocks};
use mir_func::func::Func;
use pass_losses::told::put_in_order;
use pass_trait::loss::{Loss, Losses};
use rv64_instr::reg::Reg;
use scan_stale::places::GivenPlaces;
use scan_stale::stale::StaleRegisters;
use std::alloc::{AllocError, Global};

/// Blocks after the step, with what is lost.
#[derive(Drop)]
pub struct AllottedBlocks {
    /// The blocks.
    pub blocks: Blocks,
    /// What is lost, in order and without duplicates.
    pub losses: Losses,
}

/// The blocks of a function, in which virtual registers are replaced by the physical ones of this table, and debug values
/// and DBG_PHIs are undef where the place of their register may have another value. The error is out of memory.
pub fn allotted_blocks(
    alloc: Global,
    f: &Func,
    given: &[Option<Reg>],
) -> Result<AllottedBlocks, AllocError>
    requires few { length given.now ≤ 4096 }
    requires real { AreReal (given_by given.now) }
    ensures { IfOk result (λ made. (subs : List DebugSubstitution) →
        AreAllotted f.now subs (given_by given.now) made.blocks made.losses) }
{
    let _ = &f.blocks;
    let places = GivenPlaces::new(alloc, given)?;
    let stale = StaleRegisters::solve(alloc, f, &places)?;
    let named = NamedFunction::new(f);
    let mut lost = Vec::new(alloc);
    let blocks = blocks_now(alloc, f, &named, &places, &stale, &mut lost)?;
    put_in_order(&mut lost);
    Ok(AllottedBlocks {
        blocks,
        losses: Losses::from(lost),
    })
}

fn blocks_now(
    alloc: Global,
    f: &Func,
    named: &NamedFunction,
    given: &GivenPlaces,
    stale: &StaleRegisters,
    lost: &mut Vec<Loss>,
) -> Result<Blocks, AllocError>
    requires same { named.now ≡ f.now }
    requires few { length given.now ≤ 4096 }
    requires real { AreReal (given_by given.now) }
    requires sets { AreStaleSets f.now (given_by given.now) stale.now }
    requires none { lost.old.items ≡ [] }
    ensures blocks { IfOk result (λ made. made ≡ blocks_now (given_by given.now)
        (silent_by f.now (given_by given.now) (starts_of f.now (given_by given.now) stale.now)) f.now.blocks) }
    ensures lost { IfOk result (λ made. lost.new.items ≡ lost_blocks
        (silent_by f.now (given_by given.now) (starts_of f.now (given_by given.now) stale.now)) f.now.blocks) }
{
    let mut made = Blocks::new(alloc);
    for at in 0..f.blocks.len() {
        made.push(block_now(alloc, f, named, given, stale, at, lost)?)?;
    }
    Ok(made)
}

fn block_now(
    alloc: Global,
    f: &Func,
    named: &NamedFunction,
    given: &GivenPlaces,
    stale: &StaleRegisters,
    at: usize,
    lost: &mut Vec<Loss>,
) -> Result<Block, AllocError>
    requires same { named.now ≡ f.now }
    requires few { length given.now ≤ 4096 }
    requires real { AreReal (given_by given.now) }
    requires sets { AreStaleSets f.now (given_by given.now) stale.now }
    requires inside { at < length f.now.blocks }
    ensures block { IfOk result (λ made. (b : Block) → slice_get f.now.blocks at ≡ Some b → made ≡ block_now (given_by given.now)
        (silent_by f.now (given_by given.now) (starts_of f.now (given_by given.now) stale.now)) b) }
    ensures lost { OnOk result ((b : Block) → slice_get f.now.blocks at ≡ Some b → lost.new.items ≡ lost.old.items ++ lost_items
        (silent_by f.now (given_by given.now) (starts_of f.now (given_by given.now) stale.now)) b.id 0 b.items) }
{
    let mut set = stale.at_start(given, at);
    let block = &f.blocks.as_slice()[at];
    let items = items_now(
        alloc,
        named,
        given,
        stale,
        &mut set,
        block.id,
        block.items.as_slice(),
        lost,
    )?;
    Ok(Block {
        id: block.id,
        items,
        source_end: block.source_end,
    })
}
