//! The fixpoint solver for the wrong places.

ghost use Rattle.std.specs.Prelude.{◌≡◌, ℕ, ◌<◌, length, OnOk};
ghost use Rattle.mir_func.specs.Sound.{ids_of};
ghost use Rattle.pass_liveness.specs.Solving.{gap_of};
ghost use Rattle.dce_stale.specs.Sets.{IsState, IsClosed};

use crate::walk::visit;
use base_list::List;
use dataflow::order::reverse_post_order;
use dataflow::solver::{Analysis, solve};
use mir_func::func::Func;
use pass_liveness::names::SlotAndBlockNumbers;
use pass_liveness::set::PlaceSet;
use std::alloc::{AllocError, Global};

/// The equations of the wrong places of a function's blocks, for these dead items.
#[derive(Drop)]
struct Equations<'a> {
    names: &'a SlotAndBlockNumbers,
    f: &'a Func,
    dead: &'a [List<bool>],
}

impl<'a> Analysis for Equations<'a> {
    type State = Vec<PlaceSet>;

    ghost blocks = { λ e. length e.f.now.blocks };

    ghost IsValid = { λ e starts. IsState e.names.now.slots e.names.now.blocks e.f.now e.dead.now starts.items };

    ghost IsClosed = { λ e starts b. IsClosed e.names.now.slots e.names.now.blocks e.f.now e.dead.now starts.items b };

    ghost height = { λ e starts. gap_of starts.items };

    fn visit(&self, state: &mut Vec<PlaceSet>, block: usize) -> Result<bool, AllocError> {
        Ok(visit(self.names, self.f, self.dead, state, block))
    }
}

/// Visits all blocks, predecessors first, and again those of which a predecessor's visit made a set grow, until no set
/// grows. The error is out of memory.
pub fn settle(
    alloc: Global,
    names: &SlotAndBlockNumbers,
    f: &Func,
    dead: &[List<bool>],
    starts: &mut Vec<PlaceSet>,
) -> Result<(), AllocError>
    requires names { names.now.blocks ≡ ids_of f.now.blocks }
    requires state { IsState names.now.slots names.now.blocks f.now dead.now starts.old.items }
    ensures state { OnOk result (IsState names.now.slots names.now.blocks f.now dead.now starts.new.items) }
    ensures closed { OnOk result ((b : ℕ) → b < length f.now.blocks
        → IsClosed names.now.slots names.now.blocks f.now dead.now starts.new.items b) }
{
    let ways = names.successors(alloc, f)?;
    let successors = ways.as_slice();
    let mut order = reverse_post_order(alloc, successors)?;
    let equations = Equations { names, f, dead };
    solve(alloc, &equations, starts, &mut order, successors)?;
    Ok(())
}
