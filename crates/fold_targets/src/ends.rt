//! The ends of chains.

ghost use Rattle.std.specs.Prelude.{◌≡◌, ◌⊎◌, ℕ, [], Option, Some, None, true, IfOk, OnOk, nat_eq, cond, ◌||◌};
ghost use Rattle.std.specs.Option.{is_some, IsSome};
ghost use Rattle.std.specs.HashSet.{contains};
ghost use Rattle.fold_targets.specs.Ways.{EndsAt};
ghost use Rattle.fold_targets.specs.Ends.{told, end_in};
ghost use Rattle.fold_targets.specs.steps.Settled.{AreEnds, Chain, StayKnown, is_among};

use std::alloc::{AllocError, Global};
use std::collections::{HashMap, HashSet};

/// The end of each block's chain, where `leads` maps each jump-only block to the block to which it forwards. A block
/// that is its own end may be missing.
pub fn ends(alloc: Global, leads: &HashMap<u32, u32>) -> Result<HashMap<u32, u32>, AllocError>
    ensures { IfOk result (λ m. (n : ℕ) → EndsAt (told leads.now) n (end_in m n)) }
{
    let mut ends = HashMap::new(alloc);
    for n in leads.keys() {
        settle(alloc, leads, &mut ends, *n)?;
    }
    Ok(ends)
}

/// Finds the end of a block's chain, and of each block on it.
fn settle(
    alloc: Global,
    leads: &HashMap<u32, u32>,
    ends: &mut HashMap<u32, u32>,
    from: u32,
) -> Result<(), AllocError>
    requires { AreEnds (told leads.now) (told ends.old) }
    ensures right { OnOk result (AreEnds (told leads.now) (told ends.new)) }
    ensures known { OnOk result (IsSome (told ends.new from)) }
    ensures stay { OnOk result (StayKnown (told ends.old) (told ends.new)) }
{
    let mut way = Vec::new(alloc);
    let last = walk(alloc, leads, ends, from, &mut way)?;
    let end = stop(leads, ends, &mut way, last)?;
    unwind(ends, &mut way, end)
}

/// Follows a chain to a block that isn't jump-only, whose end is known, or that is on the chain already. The blocks
/// before it are appended to `way`.
fn walk(
    alloc: Global,
    leads: &HashMap<u32, u32>,
    ends: &HashMap<u32, u32>,
    from: u32,
    way: &mut Vec<u32>,
) -> Result<u32, AllocError>
    requires { way.old.items ≡ [] }
    ensures chain { IfOk result (λ last. Chain (told leads.now) from way.new.items last) }
    ensures last { IfOk result (λ last. (told leads.now last ≡ None) ⊎ (IsSome (told ends.now last)
        ⊎ (is_among way.new.items last ≡ true))) }
{
    let mut passed = HashSet::new(alloc);
    let mut at = from;
    while let Some(n) = onward(leads, ends, &passed, at) {
        way.push(at)?;
        passed.insert(at)?;
        at = n;
    }
    Ok(at)
}

/// Where a block forwards control, if its end isn't known and it isn't on the chain yet.
fn onward(
    leads: &HashMap<u32, u32>,
    ends: &HashMap<u32, u32>,
    passed: &HashSet<u32>,
    at: u32,
) -> Option<u32>
    ensures { result ≡ cond (is_some (told ends.now at) || contains nat_eq passed.now at) None (told leads.now at) }
{
    if ends.contains_key(&at) || passed.contains(&at) {
        return None;
    }
    leads.get(&at).copied()
}

/// Makes the end of the block known at which a walk stopped, and returns it. A cycle is removed from the chain.
fn stop(
    leads: &HashMap<u32, u32>,
    ends: &mut HashMap<u32, u32>,
    way: &mut Vec<u32>,
    last: u32,
) -> Result<u32, AllocError>
    requires { (told leads.now last ≡ None) ⊎ (IsSome (told ends.old last) ⊎ (is_among way.old.items last ≡ true)) }
    ensures end { IfOk result (λ e. told ends.new last ≡ Some e) }
    ensures chain { OnOk result ((lead : ℕ → Option ℕ) → (from : ℕ) → Chain lead from way.old.items last
        → Chain lead from way.new.items last) }
    ensures right { OnOk result ((from : ℕ) → Chain (told leads.now) from way.old.items last
        → AreEnds (told leads.now) (told ends.old) → AreEnds (told leads.now) (told ends.new)) }
    ensures stay { OnOk result (StayKnown (told ends.old) (told ends.new)) }
{
    match ends.get(&last).copied() {
        Some(end) => Ok(end),
        None => {
            if leads.contains_key(&last) {
                close(ends, way, last)?;
            } else {
                ends.insert(last, last)?;
            }
            Ok(last)
        }
    }
}

/// Removes a cycle from the end of a chain that returns to `last`: each block on it is its own end.
fn close(ends: &mut HashMap<u32, u32>, way: &mut Vec<u32>, last: u32) -> Result<(), AllocError>
    requires { is_among way.old.items last ≡ true }
    ensures end { OnOk result (told ends.new last ≡ Some last) }
    ensures chain { OnOk result ((lead : ℕ → Option ℕ) → (from : ℕ) → Chain lead from way.old.items last
        → Chain lead from way.new.items last) }
    ensures right { OnOk result ((lead : ℕ → Option ℕ) → (from : ℕ) → Chain lead from way.old.items last
        → AreEnds lead (told ends.old) → AreEnds lead (told ends.new)) }
    ensures stay { OnOk result (StayKnown (told ends.old) (told ends.new)) }
{
    while let Some(x) = way.pop() {
        ends.insert(x, x)?;
        if x == last {
            return Ok(());
        }
    }
    Ok(())
}

/// Records the ends of the blocks of a chain that leads to a block with this end, from the last one back.
fn unwind(ends: &mut HashMap<u32, u32>, way: &mut Vec<u32>, end: u32) -> Result<(), AllocError>
    ensures right { OnOk result ((lead : ℕ → Option ℕ) → (from last : ℕ) → Chain lead from way.old.items last
        → told ends.old last ≡ Some end → AreEnds lead (told ends.old)
        → AreEnds lead (told ends.new) × IsSome (told ends.new from)) }
    ensures stay { OnOk result (StayKnown (told ends.old) (told ends.new)) }
{
    let mut end = end;
    while let Some(x) = way.pop() {
        if let Some(known) = ends.get(&x).copied() {
            end = known;
        } else {
            ends.insert(x, end)?;
        }
    }
    Ok(())
}
