//! Which virtual registers get slots.

ghost use Rattle.std.specs.Prelude.{◌≡◌, ◌+◌, ◌<◌, ◌^◌, map, nat_lt, length, IfOk};
ghost use Rattle.mir_func.specs.Limits.{MAX_SLOTS};
ghost use Rattle.pass_trait.specs.Sizes.{greatest};
ghost use Rattle.spill_pass.specs.spill_rule.Choice.{next_slot, homes_from};
ghost use Rattle.scan_slots.specs.Choice.{stays, all_homes, homes_left, settling_of};

use mir_func::func::Func;
use mir_func::limits::MAX_SLOTS;
use rv64_instr::reg::Registers;
use scan_slots::scan_allocation_crate::added::adds_virtual;
use scan_slots::scan_intervals_crate::interval::LiveInterval;
use spill_code::spilling::{SlotAssignments, Spilling};
use spill_pass::spill_select_crate::choice::{homes_from, lacks_scratch, next_slot};
use spill_pass::spill_select_crate::scratch::{first_scratch, scratch_of, second_scratch};
use std::alloc::{AllocError, Global};

/// The scratch registers, and the slots of the registers of these intervals.
pub fn settling_of(
    alloc: Global,
    intervals: &[LiveInterval],
    f: &Func,
) -> Result<Spilling, AllocError>
    requires { greatest f.now.slots + MAX_SLOTS < 2 ^ 31 }
    ensures { IfOk result (λ s. s ≡ settling_of f.now intervals.now) }
{
    let scratch = scratch_of(alloc, f)?;
    Ok(Spilling {
        first: first_scratch(scratch.as_slice()),
        second: second_scratch(scratch.as_slice()),
        homes: homes_left(alloc, intervals, f)?,
    })
}

/// The registers of these intervals with their slots, or none if the function stays as it is.
fn homes_left(
    alloc: Global,
    intervals: &[LiveInterval],
    f: &Func,
) -> Result<SlotAssignments, AllocError>
    requires { greatest f.now.slots + MAX_SLOTS < 2 ^ 31 }
    ensures { IfOk result (λ homes. homes ≡ homes_left f.now intervals.now) }
{
    if stays(alloc, intervals, f)? {
        return Ok(SlotAssignments::new(alloc));
    }
    let registers = registers_of(alloc, intervals)?;
    homes_from(alloc, next_slot(f.slots.as_slice()), registers.as_slice())
}

/// Whether the function stays as it is: fewer than two scratch registers are free, added code names a virtual register, or
/// there would be too many slots.
fn stays(alloc: Global, intervals: &[LiveInterval], f: &Func) -> Result<bool, AllocError>
    ensures { IfOk result (λ is. is ≡ stays f.now intervals.now) }
{
    let lacks = lacks_scratch(alloc, f)?;
    Ok(lacks || adds_virtual(f) || is_crowded(intervals, f))
}

/// Whether there would be more slots and stack objects than a function may have.
fn is_crowded(intervals: &[LiveInterval], f: &Func) -> bool
    ensures { result ≡ nat_lt MAX_SLOTS (length f.now.slots + length f.now.objects + length intervals.now) }
{
    exceeds(f.slots.len(), f.objects.len(), intervals.len())
}

/// Whether these numbers of slots, stack objects and further slots are together more than a function may have.
fn exceeds(slots: usize, objects: usize, more: usize) -> bool
    ensures { result ≡ nat_lt MAX_SLOTS (slots + objects + more) }
{
    if MAX_SLOTS < slots {
        return true;
    }
    let left = MAX_SLOTS - slots;
    if left < objects {
        return true;
    }
    left - objects < more
}

/// The registers of these intervals, in their order.
fn registers_of(alloc: Global, intervals: &[LiveInterval]) -> Result<Registers, AllocError>
    ensures { IfOk result (λ registers. registers ≡ map (λ i. i.register) intervals.now) }
{
    let mut registers = Registers::new(alloc);
    for i in intervals {
        registers.push(i.register)?;
    }
    Ok(registers)
}
