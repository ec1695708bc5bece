//! The physical registers that virtual registers get, as a table.

ghost use Rattle.std.specs.Prelude.{◌≡◌, ◌<◌, ◌≤◌, ◌-◌, ℕ, [], None, All, IfOk, OnOk, length, slice_index_or, slice_set};
ghost use Rattle.scan_liveness.specs.scan_allocation.Allocation.{given_unless};
ghost use Rattle.scan_liveness.specs.scan_allocation.Coloring.{now};
ghost use Rattle.scan_liveness.specs.scan_allocation.Walk.{given_to};
ghost use Rattle.scan_choice.specs.Given.{given_by};

use rv64_instr::reg::Reg;
use scan_liveness::scan_allocation_crate::assignment::RegisterAssignment;
use std::alloc::{AllocError, Global};

/// The physical register that each virtual register gets, if it gets one: first that of the first virtual register, and so
/// on, as far as there are any.
pub type GivenRegisters = Vec<Option<Reg>>;

/// The physical register that a register gets, if it gets one. It takes no memory.
pub fn given_to(given: &[Option<Reg>], r: Reg) -> Option<Reg>
    ensures { result ≡ given_by given.now r }
{
    let number = r.number() as usize;
    if number < 32 {
        return None;
    }
    match given.get(number - 32) {
        Some(entry) => *entry,
        None => None,
    }
}

/// The register in which the value of a register is: the one that it gets, or itself. It takes no memory.
pub fn now(given: &[Option<Reg>], r: Reg) -> Reg
    ensures { result ≡ now (given_by given.now) r }
{
    match given_to(given, r) {
        Some(q) => q,
        None => r,
    }
}

/// The table of these assignments, of which the first one for a register counts, or the empty table if the function stays
/// as it is. The error is out of memory.
pub fn table_of(
    alloc: Global,
    stays: bool,
    assignments: &[RegisterAssignment],
) -> Result<GivenRegisters, AllocError>
    requires { All (λ a. 32 ≤ a.register) assignments.now }
    ensures few { IfOk result (λ given. length given.items ≤ 4096) }
    ensures table { IfOk result (λ given. (r : ℕ) → given_by given.items r ≡ given_unless stays assignments.now r) }
{
    let mut given = Vec::new(alloc);
    if stays {
        return Ok(given);
    }
    put_all(assignments, &mut given)?;
    Ok(given)
}

#[tactic(auto, using(crate::proofs::Entered::entered_ends))]
/// Enters assignments into an empty table, the last one first.
fn put_all(assignments: &[RegisterAssignment], given: &mut GivenRegisters) -> Result<(), AllocError>
    requires low { All (λ a. 32 ≤ a.register) assignments.now }
    requires none { given.old.items ≡ [] }
    ensures few { OnOk result (length given.new.items ≤ 4096) }
    ensures table { OnOk result ((r : ℕ) → given_by given.new.items r ≡ given_to assignments.now r) }
{
    let mut above = assignments;
    while let Some((last, rest)) = above.split_last() {
        put(last, given)?;
        above = rest;
    }
    Ok(())
}

fn put(a: &RegisterAssignment, given: &mut GivenRegisters) -> Result<(), AllocError>
    requires low { 32 ≤ a.now.register }
    requires few { length given.old.items ≤ 4096 }
    ensures few { OnOk result (length given.new.items ≤ 4096) }
    ensures at { OnOk result (given_by given.new.items a.now.register ≡ a.now.given) }
    ensures others { OnOk result ((r : ℕ) → (r ≡ a.now.register → ⊥) →
        given_by given.new.items r ≡ given_by given.old.items r) }
{
    let k = index_of(a.register);
    lengthen(given, k + 1)?;
    set_entry(given, k, a.given);
    Ok(())
}

/// Lengthens a table to at least so many entries.
fn lengthen(given: &mut GivenRegisters, count: usize) -> Result<(), AllocError>
    requires count { count ≤ 4096 }
    requires few { length given.old.items ≤ 4096 }
    ensures long { OnOk result (count ≤ length given.new.items) }
    ensures few { OnOk result (length given.new.items ≤ 4096) }
    ensures same { OnOk result ((k : ℕ) → slice_index_or given.new.items k None ≡ slice_index_or given.old.items k None) }
{
    while given.len() < count {
        given.push(None)?;
    }
    Ok(())
}

/// The index of a virtual register.
fn index_of(r: Reg) -> usize
    requires { 32 ≤ r }
    ensures index { result ≡ r - 32 }
    ensures below { result < 4096 }
{
    r.number() as usize - 32
}

fn set_entry(given: &mut GivenRegisters, k: usize, entry: Option<Reg>)
    requires { k < length given.old.items }
    ensures { given.new.items ≡ slice_set given.old.items k entry }
{
    given[k] = entry;
}
