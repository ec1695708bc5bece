//! Salvages the number of one copy.

ghost use Rattle.std.specs.Prelude.{◌≡◌, ◌++◌, ◌+◌, ◌<◌, ◌≤◌, ◌^◌, [], ◌∷◌, Some, length, take, drop};
ghost use Rattle.std.specs.Prelude.{cond, nat_eq, false, IfOk, OnOk};
ghost use Rattle.pass_salvage.specs.SalvageAction.{has_entry, salvage_action, going_from};
ghost use Rattle.pass_salvage.specs.Salvage.{with_number, numbered_at, above_after, entry_for, entries_for};
ghost use Rattle.pass_salvage.specs.Salvage.{fresh_after, phi_for};
ghost use Rattle.pass_salvage.specs.Lookup.{IsLookupOf};

use crate::lookup::{Lookup, choose_way};
use crate::salvage_action::SalvageAction;
use base_ids::function_ids::{DebugNumber, OperandIndex};
use mir_func::debug_substitution::{DebugSubstitution, OperandPair};
use mir_func::item::{Item, ItemKind};
use mir_func::location::Loc;
use mir_func::position::Origin;
use pass_trait::mir_substitution_crate::substitutions::Substitutions;
use rv64_instr::place::Place;
use rv64_instr::reg::Reg;
use std::alloc::{AllocError, Global};

/// Salvages the number of a copy of `source`, which stands below the first `at` items of its block: code among them that
/// defines the copied value gets a number and the substitution, if it can. Returns how the number is salvaged. The copy
/// itself is the caller's, which removes it or its number, and after `GetsPhi` puts a DBG_PHI in its position. `removed`
/// has for each item of the block whether it is removed too, as far as it goes. `fresh` is a fresh number, and is
/// incremented if it is used. After an error the items, the substitutions and the lookup may only be dropped.
pub fn salvage(
    alloc: Global,
    items: &mut Vec<Item>,
    at: usize,
    subs: &mut Substitutions,
    lookup: &mut Lookup,
    removed: &[bool],
    number: DebugNumber,
    source: Reg,
    fresh: &mut u32,
) -> Result<SalvageAction, AllocError>
    requires at { at ≤ length items.old.items }
    requires fresh { fresh.old < 2 ^ 31 }
    requires lookup { IsLookupOf lookup.old subs.old (take at items.old.items) }
    ensures action { IfOk result (λ w.
        w ≡ salvage_action (going_from 0 removed.now) subs.old fresh.old number source (take at items.old.items)) }
    ensures items { IfOk result (λ w.
        items.new.items ≡ above_after w (take at items.old.items) ++ drop at items.old.items) }
    ensures size { length items.new.items ≡ length items.old.items }
    ensures entries { IfOk result (λ w. subs.new ≡ subs.old ++ entries_for w number) }
    ensures fresh { IfOk result (λ w. fresh.new ≡ fresh_after w fresh.old) }
    ensures counted { OnOk result (fresh.new ≤ fresh.old + 1) }
    ensures lookup { OnOk result (IsLookupOf lookup.new subs.new (take at items.new.items)) }
{
    let above = &items[..at];
    let action = choose_way(
        lookup,
        above,
        subs,
        removed,
        number,
        source,
        DebugNumber(*fresh),
    );
    match action {
        SalvageAction::HasEntry => Ok(action),
        SalvageAction::GetsEntry(d, operand, standing) => {
            put_entry(alloc, items, at, subs, lookup, number, d, operand, standing)?;
            use_fresh(standing, fresh);
            Ok(action)
        }
        SalvageAction::GetsPhi => Ok(action),
    }
}

/// Adds the substitution of a number, which has none, by an operand of the code at index `d`, and gives the code this
/// number.
fn put_entry(
    alloc: Global,
    items: &mut Vec<Item>,
    at: usize,
    subs: &mut Substitutions,
    lookup: &mut Lookup,
    number: DebugNumber,
    d: usize,
    operand: OperandIndex,
    standing: DebugNumber,
) -> Result<(), AllocError>
    requires at { at ≤ length items.old.items }
    requires above { d < at }
    requires free { has_entry subs.old (Some number) 0 ≡ false }
    ensures items { OnOk result (items.new.items ≡
        numbered_at d standing (take at items.old.items) ++ drop at items.old.items) }
    ensures size { length items.new.items ≡ length items.old.items }
    ensures entries { OnOk result (subs.new ≡ subs.old ++ entry_for number standing operand ∷ []) }
    ensures lookup { OnOk result (IsLookupOf lookup.old subs.old (take at items.old.items) →
        IsLookupOf lookup.new subs.new (take at items.new.items)) }
{
    lookup.substitute(alloc, subs, &items[..at], number, standing, operand)?;
    give_number(&mut items[d], standing);
    Ok(())
}

/// Increments the fresh number if this number is it.
fn use_fresh(standing: DebugNumber, fresh: &mut u32)
    requires { fresh.old < 2 ^ 31 }
    ensures value { fresh.new ≡ cond (nat_eq standing fresh.old) (fresh.old + 1) fresh.old }
    ensures counted { fresh.new ≤ fresh.old + 1 }
{
    if standing.number() == *fresh {
        *fresh += 1;
    }
}

/// The substitution of a number's operand 0 by an operand of another.
pub(crate) fn entry_for(
    number: DebugNumber,
    standing: DebugNumber,
    operand: OperandIndex,
) -> DebugSubstitution
    ensures { result ≡ entry_for number standing operand }
{
    DebugSubstitution {
        src: OperandPair {
            number,
            operand: OperandIndex(0),
        },
        dst: OperandPair {
            number: standing,
            operand,
        },
        subreg: 0,
    }
}

/// Sets the number of code; debug items are unchanged.
fn give_number(x: &mut Item, number: DebugNumber)
    ensures { x.new ≡ record x.old { kind = with_number number x.old.kind } }
{
    if let ItemKind::Code(_, n) = &mut x.kind {
        *n = Some(number);
    }
}

/// Replaces a copy by the DBG_PHI of its source.
pub fn put_phi(x: &mut Item, number: DebugNumber, source: Reg)
    ensures { x.new ≡ phi_for number source x.old.origin }
{
    let at = match &x.origin {
        Origin::Kept(p) => *p,
        Origin::Before(p) => *p,
    };
    x.kind = ItemKind::Phi(Some(Place::Register(source)), number);
    x.origin = Origin::Before(at);
    x.loc = Loc::Absent;
}
