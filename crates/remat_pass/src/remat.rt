//! The pass that rematerializes constants.

ghost use Rattle.std.specs.Prelude.{◌≡◌, [], ◌∷◌, All, IsTrue, OnOk, OnErr, true, false};
ghost use Rattle.rv64_instr.specs.Form.{has_form};
ghost use Rattle.mir_func.specs.Sound.{AllItems, IsSound, HasForm};
ghost use Rattle.remat_pass.specs.Known.{nothing_known};
ghost use Rattle.remat_pass.specs.Table.{known_by};
ghost use Rattle.remat_pass.specs.Remat.{constant_for, set_or_same, set_in, set_items, set_blocks, rematerialized};
ghost use Rattle.remat_pass.specs.Partly.{AreItemsSet, AreBlocksSet};
ghost use Rattle.remat_pass.specs.Pass.{remat_step};
ghost use Rattle.remat_pass.specs.Laws.{one_rematerialized, same_rematerialized};
ghost use Rattle.std.proofs.Common.{rules};

use crate::constant::{Constant, constant_code};
use crate::known::Known;
use mir_func::block::Block;
use mir_func::func::Func;
use mir_func::item::{Item, ItemKind};
use mir_substitution::substitutions::Substitutions;
use pass_trait::loss::Losses;
use pass_trait::pass::Pass;
use rv64_instr::instr::Instr;
use std::alloc::{AllocError, Global};

/// Rematerializes constants where they are copied or loaded from a slot, so that their sources may become dead. Nothing
/// is lost.
#[derive(Drop)]
pub struct RematPass;

impl Pass for RematPass {
    ghost asks = { false };

    ghost keeps = { true };

    ghost fits = { true };

    ghost factor = { 1 };

    ghost count = { 1 };

    ghost steps = { λ s. remat_step ∷ [] };

    fn run(
        &mut self,
        alloc: Global,
        f: &mut Func,
        _subs: &mut Substitutions,
    ) -> Result<Losses, AllocError> {
        set_constants(alloc, f)?;
        Ok(Losses::new(alloc))
    }

    ghost one_code = { λ s. (one_rematerialized, tt) };

    ghost same_code = { λ s. (same_rematerialized, tt) };

    ghost grows = { Prim.search rules };
}

/// What the pass states of itself: it needs no matched block ends and keeps them, and its bounds on sizes.
pub fn remat_pass_keeps_block_ends()
    ensures asks { ⟦<RematPass as Pass>⟧.asks ≡ false }
    ensures keeps { ⟦<RematPass as Pass>⟧.keeps ≡ true }
    ensures fits { ⟦<RematPass as Pass>⟧.fits ≡ true }
    ensures factor { ⟦<RematPass as Pass>⟧.factor ≡ 1 }
    ensures count { ⟦<RematPass as Pass>⟧.count ≡ 1 }
{}

/// Rematerializes the constants of a function. After an error, some of them.
fn set_constants(alloc: Global, f: &mut Func) -> Result<(), AllocError>
    ensures code { OnOk result (f.new ≡ rematerialized f.old) }
    ensures forms { OnOk result (AllItems (λ i. HasForm i.kind) f.old.blocks) }
    ensures sound { IsSound f.old }
{
    set_blocks(alloc, &mut f.blocks.items)
}

/// Rematerializes the constants of all blocks. After an error, some of them, and the other items are unchanged.
pub fn set_blocks(alloc: Global, blocks: &mut Vec<Block>) -> Result<(), AllocError>
    ensures code { OnOk result (blocks.new.items ≡ set_blocks blocks.old.items) }
    ensures forms { OnOk result (AllItems (λ i. HasForm i.kind) blocks.old.items) }
    ensures each { AreBlocksSet blocks.old.items blocks.new.items }
{
    for b in blocks.iter_mut() {
        set_items(alloc, &mut b.items.items)?;
    }
    Ok(())
}

/// Rematerializes the constants of a block's items. After an error, some of them, and the other items are unchanged.
fn set_items(alloc: Global, items: &mut Vec<Item>) -> Result<(), AllocError>
    ensures code { OnOk result (items.new.items ≡ set_items nothing_known items.old.items) }
    ensures forms { OnOk result (All (λ i. HasForm i.kind) items.old.items) }
    ensures each { AreItemsSet items.old.items items.new.items }
{
    let mut known = Known::new(alloc);
    for item in items.iter_mut() {
        set_in(alloc, &known, &mut item.kind)?;
        known.pass(&item.kind)?;
    }
    Ok(())
}

/// Replaces a copy or a load by a constant definition, if its value is known and the load isn't volatile. After an
/// error the item is unchanged.
fn set_in(alloc: Global, known: &Known, kind: &mut ItemKind) -> Result<(), AllocError>
    ensures code { OnOk result (kind.new ≡ set_in (known_by known.now.registers known.now.slots) kind.old) }
    ensures err { OnErr result (kind.new ≡ kind.old) }
    ensures form { HasForm kind.old }
{
    match kind {
        ItemKind::Code(i, _) => set_code(alloc, known, i),
        ItemKind::Mark(_, _) | ItemKind::Phi(_, _) => Ok(()),
    }
}

fn set_code(alloc: Global, known: &Known, i: &mut Instr) -> Result<(), AllocError>
    ensures code { OnOk result (i.new
        ≡ set_or_same (constant_for (known_by known.now.registers known.now.slots) i.old) i.old) }
    ensures err { OnErr result (i.new ≡ i.old) }
    ensures form { IsTrue (has_form i.old.op i.old.operands) }
{
    if let Some(c) = constant_for(known, i) {
        *i = constant_code(alloc, c, i.operands.as_slice())?;
    }
    Ok(())
}

/// The known constant that may be set in place of an instruction: none for a volatile load, which stays.
fn constant_for(known: &Known, i: &Instr) -> Option<Constant>
    ensures { result ≡ constant_for (known_by known.now.registers known.now.slots) i.now }
{
    if i.is_volatile_load() {
        None
    } else {
        known.constant_set(&i.decoded())
    }
}
