//! A small example pass that removes no-operations, as a pattern for new passes.
ghost use Rattle.std.specs.Prelude.{◌≡◌, ◌++◌, [], ◌∷◌, true, false, filter, IfOk, OnOk};
ghost use Rattle.std.specs.List.{list_any};
ghost use Rattle.sem_simulation.specs.rv64_instr.Row.{row_of};
ghost use Rattle.sem_simulation.specs.mir_func.Sound.{IsSound};
ghost use Rattle.pass_trait.specs.Order.{IsInOrder};
ghost use Rattle.pass_trait.specs.Rule.{AreNumbersLost};
ghost use Rattle.pass_trait.specs.Laws.{one_thinned, same_thinned};
ghost use Rattle.pass_trait.specs.Nops.{is_nop_row, is_nop, is_added_save, has_added_saves, stays, thinned_blocks};
ghost use Rattle.pass_trait.specs.Nops.{thinned, nop_step, nop_number, nop_numbers, numbers_in_items, lost_in};
ghost use Rattle.std.proofs.Common.{rules};

use crate::loss::{Loss, Losses, Lost, Reason};
use crate::pass::Pass;
use mir_substitution::base_ids_crate::function_ids::DebugNumber;
use mir_substitution::substitutions::Substitutions;
use sem_simulation::mir_func_crate::block::Block;
use sem_simulation::mir_func_crate::func::Func;
use sem_simulation::mir_func_crate::item::{Item, ItemKind};
use sem_simulation::mir_func_crate::position::Origin;
use sem_simulation::rv64_instr_crate::decoded::Decoded;
use sem_simulation::rv64_instr_crate::instr::Instr;
use std::alloc::{AllocError, Global};

/// Removes no-operations: constant definitions of x0. Their numbers are lost. A function to which slot stores were
/// added stays unchanged.
#[derive(Drop)]
pub struct NopPass;

impl Pass for NopPass {
    ghost asks = { false };

    ghost keeps = { true };

    ghost fits = { true };

    ghost factor = { 1 };

    ghost count = { 0 };

    ghost steps = { λ s. nop_step ∷ [] };

    fn run(
        &mut self,
        alloc: Global,
        f: &mut Func,
        _subs: &mut Substitutions,
    ) -> Result<Losses, AllocError> {
        let numbers = take_out_nops(alloc, f)?;
        lost_numbers(alloc, numbers, Reason::Removed)
    }

    ghost one_code = { λ s. (one_thinned, tt) };

    ghost same_code = { λ s. (same_thinned, tt) };

    ghost grows = { Prim.search rules };
}

/// Removes the no-operations and returns their numbers, in order. A function to which slot stores were added stays
/// unchanged, and no numbers are returned.
fn take_out_nops(alloc: Global, f: &mut Func) -> Result<Vec<DebugNumber>, AllocError>
    ensures code { OnOk result (f.new ≡ thinned f.old) }
    ensures numbers { IfOk result (λ ns. ns.items ≡ lost_in f.old) }
    ensures sound { IsSound f.old }
{
    if has_added_saves(f.blocks.as_slice()) {
        return Ok(Vec::new(alloc));
    }
    let numbers = nop_numbers(alloc, f.blocks.as_slice())?;
    take_out(&mut f.blocks.items);
    Ok(numbers)
}

/// Whether the instruction is a no-operation.
fn is_nop(i: &Instr) -> bool
    ensures { result ≡ is_nop_row (row_of i.now) }
{
    match i.decoded() {
        Decoded::Fixes(rd, _) => rd.number() == 0,
        _ => false,
    }
}

/// Whether the blocks have slot stores that a pass added.
fn has_added_saves(blocks: &[Block]) -> bool
    ensures { result ≡ has_added_saves blocks.now }
{
    blocks.iter().any(|b| saves_in(b.items.as_slice()))
}

/// Whether the items have slot stores that a pass added.
fn saves_in(items: &[Item]) -> bool
    ensures { result ≡ list_any (λ i. is_added_save i.kind i.origin) items.now }
{
    items.iter().any(is_added_save)
}

/// Whether the item is a slot store that a pass added.
fn is_added_save(i: &Item) -> bool
    ensures { result ≡ is_added_save i.now.kind i.now.origin }
{
    match (&i.kind, &i.origin) {
        (ItemKind::Code(c, _), Origin::Before(_)) => matches!(
            c.decoded(),
            Decoded::StoresSlot(_, _)
        ),
        _ => false,
    }
}

/// The numbers of the no-operations of blocks, in order.
fn nop_numbers(alloc: Global, blocks: &[Block]) -> Result<Vec<DebugNumber>, AllocError>
    ensures { IfOk result (λ ns. ns.items ≡ nop_numbers blocks.now) }
{
    let mut numbers = Vec::new(alloc);
    for b in blocks {
        push_numbers(b.items.as_slice(), &mut numbers)?;
    }
    Ok(numbers)
}

/// Appends the numbers of the no-operations of items.
fn push_numbers(items: &[Item], numbers: &mut Vec<DebugNumber>) -> Result<(), AllocError>
    ensures { OnOk result (numbers.new.items ≡ numbers.old.items ++ numbers_in_items items.now) }
{
    for i in items {
        if let Some(n) = nop_number(&i.kind) {
            numbers.push(n)?;
        }
    }
    Ok(())
}

/// The number of a no-operation, if it has one.
fn nop_number(k: &ItemKind) -> Option<DebugNumber>
    ensures { result ≡ nop_number k.now }
{
    match k {
        ItemKind::Code(i, Some(n)) if is_nop(i) => Some(*n),
        ItemKind::Code(_, _) | ItemKind::Mark(_, _) | ItemKind::Phi(_, _) => None,
    }
}

/// Removes the no-operations from blocks.
fn take_out(blocks: &mut Vec<Block>)
    ensures { blocks.new.items ≡ thinned_blocks false blocks.old.items }
{
    for b in blocks.iter_mut() {
        take_out_of(&mut b.items.items);
    }
}

/// Removes the no-operations from items.
fn take_out_of(items: &mut Vec<Item>)
    ensures { items.new.items ≡ filter (stays false) items.old.items }
{
    items.retain(|i| !is_nop_item(i));
}

/// Whether the item is a no-operation.
fn is_nop_item(i: &Item) -> bool
    ensures { result ≡ is_nop i.now.kind }
{
    match &i.kind {
        ItemKind::Code(c, _) => is_nop(c),
        _ => false,
    }
}

/// The losses of these numbers for one reason, without duplicates and in order.
pub fn lost_numbers(
    alloc: Global,
    numbers: Vec<DebugNumber>,
    why: Reason,
) -> Result<Losses, AllocError>
    ensures ordered { IfOk result IsInOrder }
    ensures each { IfOk result (AreNumbersLost numbers.items why) }
{
    let mut numbers = numbers;
    numbers.sort_unstable();
    numbers.dedup();
    let mut losses = Losses::new(alloc);
    for n in &numbers {
        losses.push(Loss {
            what: Lost::Number(*n),
            reason: why,
        })?;
    }
    Ok(losses)
}
