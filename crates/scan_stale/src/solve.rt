//! The fixpoint solver for stale registers.

ghost use Rattle.std.specs.Prelude.{◌≡◌, ℕ, ◌<◌, ◌≤◌, length, OnOk};
ghost use Rattle.mir_func.specs.Sound.{ids_of};
ghost use Rattle.pass_liveness.specs.Solving.{gap_of};
ghost use Rattle.scan_choice.specs.Given.{given_by};
ghost use Rattle.scan_stale.specs.Sets.{IsState, IsClosed};
ghost use Rattle.scan_stale.specs.Written.{AreReal, IsSolving};

use crate::places::GivenPlaces;
use crate::walk::visit;
use dataflow::order::reverse_post_order;
use dataflow::solver::{Analysis, solve};
use mir_func::func::Func;
use pass_liveness::names::SlotAndBlockNumbers;
use pass_liveness::set::PlaceSet;
use std::alloc::{AllocError, Global};

/// The equations of the stale registers of a function's blocks, where virtual registers get these physical ones.
#[derive(Drop)]
struct Equations<'a> {
    names: &'a SlotAndBlockNumbers,
    f: &'a Func,
    given: &'a GivenPlaces,
}

impl<'a> Analysis for Equations<'a> {
    type State = Vec<PlaceSet>;

    ghost blocks = { λ e. length e.f.now.blocks };

    ghost IsValid = { λ e starts.
        IsSolving e.given.now (IsState e.names.now.slots e.names.now.blocks e.f.now (given_by e.given.now) starts.items) };

    ghost IsClosed = { λ e starts b. IsClosed e.names.now.slots e.names.now.blocks e.f.now (given_by e.given.now) starts.items b };

    ghost height = { λ e starts. gap_of starts.items };

    fn visit(&self, state: &mut Vec<PlaceSet>, block: usize) -> Result<bool, AllocError> {
        Ok(visit(self.names, self.f, self.given, state, block))
    }
}

/// Visits all blocks, predecessors first, and again those of which a predecessor's visit made a set grow, until no set
/// grows. The error is out of memory.
pub fn settle(
    alloc: Global,
    names: &SlotAndBlockNumbers,
    f: &Func,
    given: &GivenPlaces,
    starts: &mut Vec<PlaceSet>,
) -> Result<(), AllocError>
    requires names { names.now.blocks ≡ ids_of f.now.blocks }
    requires few { length given.now ≤ 4096 }
    requires real { AreReal (given_by given.now) }
    requires state { IsState names.now.slots names.now.blocks f.now (given_by given.now) starts.old.items }
    ensures state { OnOk result (IsState names.now.slots names.now.blocks f.now (given_by given.now) starts.new.items) }
    ensures closed { OnOk result ((b : ℕ) → b < length f.now.blocks
        → IsClosed names.now.slots names.now.blocks f.now (given_by given.now) starts.new.items b) }
{
    let ways = names.successors(alloc, f)?;
    let successors = ways.as_slice();
    let mut order = reverse_post_order(alloc, successors)?;
    let equations = Equations { names, f, given };
    solve(alloc, &equations, starts, &mut order, successors)?;
    Ok(())
}
