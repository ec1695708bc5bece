//! The fixpoint of a dataflow analysis.

ghost use Rattle.std.specs.Prelude.{◌≡◌, ℕ, ◌+◌, ◌*◌, ◌<◌, ◌≤◌, length, IfOk, OnOk, cond, true};
ghost use Rattle.std.specs.VecDeque.{deque_len};
ghost use Rattle.dataflow.specs.Graph.{IsOrder, AreAtMost};
ghost use Rattle.dataflow.specs.Fixpoint.{Visited, SweepStep, Fixpoint};

use crate::graph::Ways;
use crate::worklist::Worklist;
use std::alloc::{AllocError, Global};

/// A dataflow analysis of blocks, which are named by their indices. A state has what is known of all blocks.
pub trait Analysis {
    /// What is known of all blocks.
    type State;
    /// The number of blocks.
    ghost blocks: { Self → ℕ };
    /// The invariant of the state.
    ghost IsValid: { Self → Self.State → Type 0 };
    /// Whether the state satisfies the dataflow equation of a block.
    ghost IsClosed: { Self → Self.State → ℕ → Type 0 };
    /// The height of the state in its lattice: a bound on the number of changes that are left.
    ghost height: { Self → Self.State → ℕ };

    /// Applies the dataflow equation of a block. Returns whether the state changed. The error is out of memory.
    fn visit(&self, state: &mut Self::State, block: usize) -> Result<bool, AllocError>
        requires valid { IsValid self.now state.old }
        requires inside { block < blocks self.now }
        ensures { IfOk result (λ changed.
            Visited (IsValid self.now) (IsClosed self.now) (height self.now) state.old state.new block changed) };
}

/// What finding a fixpoint took.
#[derive(Clone, Copy)]
pub struct Statistics {
    /// The number of visits by the worklist.
    pub visits: u64,
    /// The number of sweeps after it, with the last one, in which nothing changed.
    pub sweeps: u64,
}

/// Visits a block of the worklist. If the state changed, the blocks that depend on it wait.
fn turn<A: Analysis>(
    analysis: &A,
    state: &mut A::State,
    dependents: &[Ways],
    worklist: &mut Worklist,
    block: usize,
) -> Result<(), AllocError>
    requires valid { A.IsValid analysis.now state.old }
    requires long { length dependents.now ≡ A.blocks analysis.now }
    ensures valid { OnOk result (A.IsValid analysis.now state.new) }
    ensures waiting { OnOk result ((most : ℕ) → AreAtMost most dependents.now →
        deque_len worklist.new.queue + most * A.height analysis.now state.new
        ≤ deque_len worklist.old.queue + most * A.height analysis.now state.old) }
{
    if block >= dependents.len() {
        return Ok(());
    }
    let changed = analysis.visit(state, block)?;
    if !changed {
        return Ok(());
    }
    worklist.add_all(dependents[block].as_slice())?;
    Ok(())
}

/// Visits all blocks in an order, and again each block that depends on one whose visit changed the state. Returns the
/// number of visits.
fn propagate<A: Analysis>(
    alloc: Global,
    analysis: &A,
    state: &mut A::State,
    order: &[u32],
    dependents: &[Ways],
) -> Result<u64, AllocError>
    requires valid { A.IsValid analysis.now state.old }
    requires long { length dependents.now ≡ A.blocks analysis.now }
    ensures valid { OnOk result (A.IsValid analysis.now state.new) }
    ensures visits { IfOk result (λ visits. (most : ℕ) → AreAtMost most dependents.now →
        visits ≤ length order.now + most * A.height analysis.now state.old) }
{
    let mut worklist = Worklist::new(alloc, order)?;
    let mut visits = 0u64;
    for _ in 0..u64::MAX {
        let Some(block) = worklist.take() else {
            break;
        };
        turn(analysis, state, dependents, &mut worklist, block)?;
        visits = visits.saturating_add(1);
    }
    Ok(visits)
}

fn either(visited: bool, changed: bool) -> bool
    ensures { result ≡ cond visited true changed }
{
    visited || changed
}

/// Visits blocks in an order. Returns whether the state changed.
fn sweep<A: Analysis>(analysis: &A, state: &mut A::State, order: &[u32]) -> Result<bool, AllocError>
    requires valid { A.IsValid analysis.now state.old }
    requires order { IsOrder (A.blocks analysis.now) order.now }
    ensures { IfOk result (λ changed.
        SweepStep (A.IsValid analysis.now) (A.IsClosed analysis.now) (A.height analysis.now) state.old state.new
        order.now changed) }
{
    let mut changed = false;
    for block in order {
        let visited = analysis.visit(state, *block as usize)?;
        changed = either(visited, changed);
    }
    Ok(changed)
}

/// The number of sweeps in the given order before every other one goes the opposite way. Most functions need no more.
const SWEEPS_FORWARD: u64 = 3;

/// The order of the sweep with this number, from that of the sweep before. In the given order what comes along an edge
/// against it gets one block further in a sweep; in the opposite one a sweep takes it along all such edges.
fn turn_round(order: &mut Vec<u32>, sweep: u64)
    ensures { (blocks : ℕ) → IsOrder blocks order.old.items → IsOrder blocks order.new.items }
{
    if sweep <= SWEEPS_FORWARD {
        return;
    }
    order.reverse();
}

/// Visits all blocks in an order, and after three such sweeps also in the opposite one, in turn, until the state
/// satisfies all dataflow equations. Returns the number of sweeps, with the last one, in which nothing changed. The
/// error is out of memory.
pub fn settle<A: Analysis>(
    analysis: &A,
    state: &mut A::State,
    order: &mut Vec<u32>,
) -> Result<u64, AllocError>
    requires valid { A.IsValid analysis.now state.old }
    requires order { IsOrder (A.blocks analysis.now) order.old.items }
    ensures { IfOk result (λ sweeps.
        Fixpoint (A.IsValid analysis.now) (A.IsClosed analysis.now) (A.height analysis.now) (A.blocks analysis.now)
        state.old state.new sweeps) }
{
    let mut sweeps = 1u64;
    while sweep(analysis, state, order.as_slice())? {
        sweeps = sweeps.saturating_add(1);
        turn_round(order, sweeps);
    }
    Ok(sweeps)
}

/// Finds the fixpoint by a worklist: visits all blocks in an order, and again each block that depends on one whose visit
/// changed the state. Sweeps over all blocks end it, as a rule one, in which nothing changes. The worklist makes a visit
/// for each block of the order, and one at most for each dependent of a block whose visit changed the state. The error
/// is out of memory.
pub fn solve<A: Analysis>(
    alloc: Global,
    analysis: &A,
    state: &mut A::State,
    order: &mut Vec<u32>,
    dependents: &[Ways],
) -> Result<Statistics, AllocError>
    requires valid { A.IsValid analysis.now state.old }
    requires order { IsOrder (A.blocks analysis.now) order.old.items }
    requires long { length dependents.now ≡ A.blocks analysis.now }
    ensures valid { OnOk result (A.IsValid analysis.now state.new) }
    ensures closed { OnOk result ((b : ℕ) → b < A.blocks analysis.now → A.IsClosed analysis.now state.new b) }
    ensures visits { IfOk result (λ took. (most : ℕ) → AreAtMost most dependents.now →
        took.visits ≤ length order.old.items + most * A.height analysis.now state.old) }
{
    let visits = propagate(alloc, analysis, state, order.as_slice(), dependents)?;
    let sweeps = settle(analysis, state, order)?;
    Ok(Statistics { visits, sweeps })
}
