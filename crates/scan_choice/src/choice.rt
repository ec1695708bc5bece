//! Which physical register each virtual register of a function gets.

ghost use Rattle.std.specs.Prelude.{◌≡◌, ◌+◌, ◌<◌, ◌≤◌, ◌^◌, All, IfOk, count_by, length};
ghost use Rattle.scan_liveness.specs.pass_trait.Sizes.{item_count};
ghost use Rattle.scan_liveness.specs.scan_allocation.Allocation.{IsAllocation, stays, is_crowded, is_left};
ghost use Rattle.scan_choice.specs.Given.{given_by};

use crate::given::{GivenRegisters, table_of};
use mir_func::func::Func;
use mir_func::limits::MAX_SLOTS;
use rv64_instr::reg::Reg;
use scan_liveness::liveness::liveness_of;
use scan_liveness::scan_allocation_crate::added::adds_virtual;
use scan_liveness::scan_allocation_crate::assignment::RegisterAssignment;
use scan_liveness::scan_allocation_crate::order::order_without;
use scan_liveness::scan_allocation_crate::walk::walk;
use scan_liveness::spill_select_crate::choice::lacks_scratch;
use scan_liveness::spill_select_crate::scratch::scratch_of;
use std::alloc::{AllocError, Global};

/// The physical register that each virtual register of a function gets, if it gets one. None is one of the reserve. The
/// error is out of memory.
pub fn allocation_of(alloc: Global, reserve: &[Reg], f: &Func) -> Result<GivenRegisters, AllocError>
    requires { item_count f.now < 2 ^ 31 }
    ensures few { IfOk result (λ given. length given.items ≤ 4096) }
    ensures allocation { IfOk result (λ given. IsAllocation reserve.now f.now (given_by given.items)) }
{
    let liveness = liveness_of(alloc, f)?;
    let scratch = scratch_of(alloc, f)?;
    let order = order_without(alloc, reserve, scratch.as_slice())?;
    let assignments = walk(
        alloc,
        &liveness.blocked,
        order.as_slice(),
        liveness.intervals.as_slice(),
    )?;
    let stays = stays(alloc, f, assignments.as_slice())?;
    let given = table_of(alloc, stays, assignments.as_slice())?;
    Ok(given)
}

/// Whether the function stays as it is: fewer than two scratch registers are free, added code names a virtual register, or
/// there would be too many slots.
fn stays(alloc: Global, f: &Func, assignments: &[RegisterAssignment]) -> Result<bool, AllocError>
    ensures { IfOk result (λ is. is ≡ stays f.now assignments.now) }
{
    let lacks = lacks_scratch(alloc, f)?;
    Ok(lacks || (adds_virtual(f) || is_crowded(f, assignments)))
}

/// Whether there would be more slots and stack objects than a function may have, if each register that is left got a slot.
fn is_crowded(f: &Func, assignments: &[RegisterAssignment]) -> bool
    ensures { result ≡ is_crowded f.now assignments.now }
{
    let left = count_left(assignments);
    MAX_SLOTS < left || MAX_SLOTS - left < used_slots(f)
}

/// How many slots and stack objects a function has.
fn used_slots(f: &Func) -> usize
    ensures { result ≡ length f.now.slots + length f.now.objects }
{
    let _ = &f.blocks;
    f.slots.len() + f.objects.len()
}

/// How many registers are left to slots.
fn count_left(assignments: &[RegisterAssignment]) -> usize
    ensures { result ≡ count_by is_left assignments.now }
{
    let mut count = 0usize;
    for a in assignments {
        if a.given.is_none() {
            count += 1;
        }
    }
    count
}
