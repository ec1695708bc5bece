//! The walk over live intervals.

ghost use Rattle.std.specs.Prelude.{◌≡◌, ◌<◌, ℕ, List, [], ◌∷◌, ◌++◌, All, Some, IfOk, OnOk};
ghost use Rattle.scan_intervals.specs.Points.{CodePoint};
ghost use Rattle.scan_intervals.specs.Intervals.{is_clear};
ghost use Rattle.scan_intervals.specs.Blocked.{AreBlocked, is_unmasked};
ghost use Rattle.scan_allocation.specs.Walk.{find_in, is_open, free_after, assignment_of, walk};
ghost use Rattle.scan_allocation.specs.Free.{free_by};

use crate::assignment::{RegisterAssignment, RegisterAssignments};
use rv64_instr::reg::Reg;
use scan_intervals::blocked::BlockedRegisters;
use scan_intervals::interval::LiveInterval;
use std::alloc::{AllocError, Global};

/// What each interval's register gets, in their order: the first register of the order that is free at the interval's
/// start and blocked nowhere in it. The error is out of memory.
pub fn walk(
    alloc: Global,
    blocked: &BlockedRegisters,
    order: &[Reg],
    intervals: &[LiveInterval],
) -> Result<RegisterAssignments, AllocError>
    requires physical { All (λ r. r < 32) order.now }
    ensures { IfOk result (λ assignments. (points : List CodePoint) → AreBlocked points blocked.now.masks.items →
        assignments ≡ walk (is_clear points) order.now (λ r. 0) intervals.now) }
{
    let mut assignments = RegisterAssignments::new(alloc);
    assign_all(blocked, order, intervals, &mut assignments)?;
    Ok(assignments)
}

/// Adds what the intervals' registers get, where nothing was given before.
fn assign_all(
    blocked: &BlockedRegisters,
    order: &[Reg],
    intervals: &[LiveInterval],
    assignments: &mut RegisterAssignments,
) -> Result<(), AllocError>
    requires physical { All (λ r. r < 32) order.now }
    requires none { assignments.old ≡ [] }
    ensures { OnOk result (assignments.new ≡
        walk (is_unmasked blocked.now.masks.items) order.now (λ r. 0) intervals.now) }
{
    let mut free = [0u64; 32];
    for i in intervals {
        assign(blocked, order, i, &mut free, assignments)?;
    }
    Ok(())
}

/// Adds what the interval's register gets, and holds that until the interval's end.
fn assign(
    blocked: &BlockedRegisters,
    order: &[Reg],
    i: &LiveInterval,
    free: &mut [u64; 32],
    assignments: &mut RegisterAssignments,
) -> Result<(), AllocError>
    requires { All (λ r. r < 32) order.now }
    ensures assigned { OnOk result (assignments.new ≡ assignments.old ++
        assignment_of (is_unmasked blocked.now.masks.items) order.now (free_by free.old) i.now ∷ []) }
    ensures held { OnOk result ((r : ℕ) → r < 32 → free_by free.new r ≡ free_after (free_by free.old) i.now
        (assignment_of (is_unmasked blocked.now.masks.items) order.now (free_by free.old) i.now).given r) }
{
    match first_open(blocked, free, order, i) {
        Some(r) => {
            hold(free, r, i);
            assignments.push(RegisterAssignment {
                register: i.register,
                given: Some(r),
            })
        }
        None => assignments.push(RegisterAssignment {
            register: i.register,
            given: None,
        }),
    }
}

/// The first register of the order that may be given to the interval.
fn first_open(
    blocked: &BlockedRegisters,
    free: &[u64; 32],
    order: &[Reg],
    i: &LiveInterval,
) -> Option<Reg>
    requires { All (λ r. r < 32) order.now }
    ensures { result ≡ find_in (is_open (is_unmasked blocked.now.masks.items) (free_by free.now) i.now) order.now }
{
    for r in order {
        if is_open(blocked, free, i, *r) {
            return Some(*r);
        }
    }
    None
}

/// Whether a register may be given to the interval.
fn is_open(blocked: &BlockedRegisters, free: &[u64; 32], i: &LiveInterval, r: Reg) -> bool
    requires { r < 32 }
    ensures { result ≡ is_open (is_unmasked blocked.now.masks.items) (free_by free.now) i.now r }
{
    free[r.number() as usize] <= i.start as u64 && blocked.is_clear(i, r)
}

/// The register that the interval gets is free again behind the interval's end.
fn hold(free: &mut [u64; 32], r: Reg, i: &LiveInterval)
    ensures { (q : ℕ) → q < 32 → free_by free.new q ≡ free_after (free_by free.old) i.now (Some r) q }
{
    if r.number() < 32 {
        free[r.number() as usize] = i.end as u64 + 1;
    }
}
