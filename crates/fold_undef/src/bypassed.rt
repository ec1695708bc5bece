//! Which blocks are bypassed.

ghost use Rattle.std.specs.Prelude.{◌≡◌, ◌↔◌, ℕ, IfOk, IsTrue, nat_eq};
ghost use Rattle.std.specs.HashSet.{contains};
ghost use Rattle.mir_func.specs.Sound.{AreApart, ids_of};
ghost use Rattle.fold_targets.specs.Leads.{lead};
ghost use Rattle.fold_targets.specs.Ends.{told, end_in};
ghost use Rattle.fold_targets.specs.Ways.{EndsAt};
ghost use Rattle.fold_rule_proof.specs.fold_rule.Reached.{Reached};
ghost use Rattle.fold_undef.specs.Bypassed.{end_past};

use base_ids::function_ids::BlockId;
use fold_rule_proof::fold_rule_crate::reached::reached_before;
use fold_rule_proof::fold_rule_crate::ways::end_of;
use fold_targets::ends::ends;
use fold_targets::leads::leads;
use mir_func::block::Block;
use std::alloc::{AllocError, Global};
use std::collections::{HashMap, HashSet};

/// The chains and the reachable blocks of a function before folding, by block number.
#[derive(Drop)]
pub struct JumpChains {
    /// Where each jump-only block forwards control.
    pub leads: HashMap<u32, u32>,
    /// The end of each block's chain. A block that is its own end may be missing.
    pub ends: HashMap<u32, u32>,
    /// The reachable blocks.
    pub reached: HashSet<u32>,
}

/// Where jump-only blocks forward control, where their chains end, and which blocks are reachable, of blocks with
/// distinct numbers.
pub fn jump_chains(alloc: Global, blocks: &[Block]) -> Result<JumpChains, AllocError>
    requires { AreApart (ids_of blocks.now) }
    ensures leads { IfOk result (λ w. (n : ℕ) → told w.leads n ≡ lead blocks.now n) }
    ensures ends { IfOk result (λ w. (n : ℕ) → EndsAt (lead blocks.now) n (end_in w.ends n)) }
    ensures reached { IfOk result (λ w. (n : ℕ) → IsTrue (contains nat_eq w.reached n)
        ↔ Reached blocks.now (λ m. m) n) }
{
    let leads = leads(alloc, blocks)?;
    let ends = ends(alloc, &leads)?;
    let reached = reached_before(alloc, blocks)?;
    Ok(JumpChains {
        leads,
        ends,
        reached,
    })
}

/// The end of a block's chain, if the block is bypassed: it is reachable, jump-only, and not its own end.
pub fn end_past(ways: &JumpChains, block: BlockId) -> Option<BlockId>
    ensures { result ≡ end_past (end_in ways.now.ends) (contains nat_eq ways.now.reached) (told ways.now.leads) block }
{
    let number = block.number();
    if !ways.reached.contains(&number) || !ways.leads.contains_key(&number) {
        return None;
    }
    let end = end_of(&ways.ends, block);
    if block == end { None } else { Some(end) }
}
