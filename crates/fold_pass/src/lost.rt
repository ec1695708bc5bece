//! The losses of folding.

ghost use Rattle.std.specs.Prelude.{◌≡◌, ◌++◌, ◌∷◌, [], ◌↔◌, ℕ, IfOk, OnOk, Contains, nat_eq};
ghost use Rattle.std.specs.HashSet.{contains};
ghost use Rattle.std.specs.List.{cons_option};
ghost use Rattle.pass_trait.specs.declared.loss.Loss.{Loss};
ghost use Rattle.pass_trait.specs.Order.{IsInOrder};
ghost use Rattle.fold_targets.specs.Leads.{lead};
ghost use Rattle.fold_targets.specs.Ends.{told, end_in};
ghost use Rattle.fold_proof.specs.Lost.{is_unreachable, reason_for, loss_of, lost_in, all_lost};

use base_ids::function_ids::BlockId;
use fold_undef::bypassed::{JumpChains, end_past};
use mir_func::block::Block;
use mir_func::item::{Item, ItemKind};
use mir_func::position::position_of;
use pass_losses::told::put_in_order;
use pass_trait::loss::{Loss, Losses, Lost, Reason};
use std::alloc::{AllocError, Global};

/// The losses of blocks that are folded, without duplicates and in order.
pub fn fold_losses(alloc: Global, blocks: &[Block], ways: &JumpChains) -> Result<Losses, AllocError>
    requires { (n : ℕ) → told ways.now.leads n ≡ lead blocks.now n }
    ensures ordered { IfOk result IsInOrder }
    ensures each { IfOk result (λ losses. (l : Loss) → Contains losses l ↔ Contains
        (all_lost (end_in ways.now.ends) (contains nat_eq ways.now.reached) (lead blocks.now) blocks.now) l) }
{
    let mut losses = all_lost(alloc, blocks, ways)?;
    put_in_order(&mut losses);
    Ok(Losses::from(losses))
}

/// The losses of blocks, in the order of the text.
fn all_lost(alloc: Global, blocks: &[Block], ways: &JumpChains) -> Result<Vec<Loss>, AllocError>
    ensures { IfOk result (λ losses. losses.items
        ≡ all_lost (end_in ways.now.ends) (contains nat_eq ways.now.reached) (told ways.now.leads) blocks.now) }
{
    let mut losses = Vec::new(alloc);
    for b in blocks {
        if let Some(reason) = reason_for(ways, b.id) {
            push_lost(reason, b.items.as_slice(), &mut losses)?;
        }
    }
    Ok(losses)
}

/// Why the items of a block are lost, if they are.
fn reason_for(ways: &JumpChains, block: BlockId) -> Option<Reason>
    ensures { result
        ≡ reason_for (end_in ways.now.ends) (contains nat_eq ways.now.reached) (told ways.now.leads) block }
{
    if !ways.reached.contains(&block.number()) {
        return Some(Reason::Unreachable);
    }
    match end_past(ways, block) {
        Some(_) => Some(Reason::Bypassed),
        None => None,
    }
}

/// Appends the losses of items.
fn push_lost(reason: Reason, items: &[Item], losses: &mut Vec<Loss>) -> Result<(), AllocError>
    ensures { OnOk result (losses.new.items ≡ losses.old.items ++ lost_in reason items.now) }
{
    for i in items {
        push_loss(reason, i, losses)?;
    }
    Ok(())
}

/// Appends the loss of an item, if there is one.
fn push_loss(reason: Reason, i: &Item, losses: &mut Vec<Loss>) -> Result<(), AllocError>
    ensures { OnOk result (losses.new.items
        ≡ losses.old.items ++ cons_option (loss_of reason i.now.kind i.now.origin) []) }
{
    match &i.kind {
        ItemKind::Mark(_, _) => push_one(Lost::Mark(position_of(i.origin)), reason, losses),
        ItemKind::Phi(_, number) => push_one(Lost::Number(*number), reason, losses),
        ItemKind::Code(_, None) => Ok(()),
        ItemKind::Code(_, Some(number)) => {
            if is_unreachable(reason) {
                push_one(Lost::Number(*number), reason, losses)
            } else {
                Ok(())
            }
        }
    }
}

/// Appends a loss.
fn push_one(what: Lost, reason: Reason, losses: &mut Vec<Loss>) -> Result<(), AllocError>
    ensures { OnOk result (losses.new.items ≡ losses.old.items ++ record { what = what; reason = reason } ∷ []) }
{
    losses.push(Loss { what, reason })?;
    Ok(())
}

/// Whether it is the reason for unreachable blocks.
fn is_unreachable(reason: Reason) -> bool
    ensures { result ≡ is_unreachable reason }
{
    matches!(reason, Reason::Unreachable)
}
