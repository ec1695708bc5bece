//! Jump-only blocks, and where they forward control.

ghost use Rattle.std.specs.Prelude.{◌≡◌, ℕ, IfOk, nat_eq};
ghost use Rattle.std.specs.HashMap.{get};
ghost use Rattle.mir_func.specs.Sound.{AreApart, ids_of};
ghost use Rattle.fold_targets.specs.Leads.{always_to, lead_of, lead_in, lead};

use base_ids::function_ids::BlockId;
use mir_func::block::Block;
use mir_func::exit::Exit;
use mir_func::item::{Item, ItemKind};
use std::alloc::{AllocError, Global};
use std::collections::HashMap;

/// Where each jump-only block forwards control, by block number.
pub fn leads(alloc: Global, blocks: &[Block]) -> Result<HashMap<u32, u32>, AllocError>
    requires { AreApart (ids_of blocks.now) }
    ensures { IfOk result (λ m. (n : ℕ) → get nat_eq m n ≡ lead blocks.now n) }
{
    match blocks.split_first() {
        Some((_, others)) => leads_among(alloc, others),
        None => Ok(HashMap::new(alloc)),
    }
}

/// Where each of these blocks forwards control, if it is jump-only.
fn leads_among(alloc: Global, blocks: &[Block]) -> Result<HashMap<u32, u32>, AllocError>
    requires { AreApart (ids_of blocks.now) }
    ensures { IfOk result (λ m. (n : ℕ) → get nat_eq m n ≡ lead_in blocks.now n) }
{
    let mut leads = HashMap::new(alloc);
    let mut next = None;
    let mut rest = blocks;
    while let Some((b, before)) = rest.split_last() {
        if let Some(n) = lead_of(b.items.as_slice(), next) {
            leads.insert(b.id.number(), n.number())?;
        }
        next = Some(b.id);
        rest = before;
    }
    Ok(leads)
}

/// Where these items forward control, with this block below.
fn lead_of(items: &[Item], next: Option<BlockId>) -> Option<BlockId>
    ensures { result ≡ lead_of items.now next }
{
    let mut rest = items;
    while let Some((i, tail)) = rest.split_first() {
        match &i.kind {
            ItemKind::Code(_, _) => return always_to(i.kind.exit()),
            ItemKind::Mark(_, _) | ItemKind::Phi(_, _) => rest = tail,
        }
    }
    next
}

/// Where control always goes after this exit, if it always goes to one block.
pub fn always_to(exit: Exit) -> Option<BlockId>
    ensures { result ≡ always_to exit }
{
    match exit {
        Exit::Always(n) => Some(n),
        Exit::Onward | Exit::Perhaps(_) | Exit::Final => None,
    }
}
