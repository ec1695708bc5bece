//! How the items above a copy are searched, and how its number is salvaged by what is found there.

ghost use Rattle.std.specs.Prelude.{◌≡◌, ◌++◌, ◌<◌, ◌||◌, [], ◌∷◌, List, ℕ, nat_eq, Some, length, drop, suc, false, OnOk};
ghost use Rattle.std.specs.List.{list_any};
ghost use Rattle.mir_func.specs.declared.debug_substitution.DebugSubstitution.{DebugSubstitution};
ghost use Rattle.mir_func.specs.declared.item.Item.{Item};
ghost use Rattle.pass_salvage.specs.declared.salvage_action.SalvageAction.TheVariants as chosen;
ghost use Rattle.pass_salvage.specs.SalvageAction.{last_definition, asks_for, has_entry, salvage_action, going_from};
ghost use Rattle.pass_salvage.specs.Salvage.{entry_for};
ghost use Rattle.pass_salvage.specs.Lookup.{IsLookupOf};

use crate::above::{Above, substitute};
use crate::salvage::entry_for;
use crate::salvage_action::{
    SalvageAction, action_unless, ask_for, first_definition, has_entry, is_removed, last_definition,
};
use base_ids::function_ids::{DebugNumber, OperandIndex};
use mir_func::item::{Item, ItemKind};
use pass_trait::mir_substitution_crate::substitutions::Substitutions;
use rv64_instr::reg::Reg;
use std::alloc::{AllocError, Global};

/// How the items above a copy are searched.
#[derive(Drop)]
pub enum Lookup {
    /// By an index of them, in constant time; a new substitution updates it.
    Index(Above),
    /// By a walk over them, which takes no memory.
    Walk,
}

impl Lookup {
    /// Adds the next item, which has this index.
    pub fn push(
        &mut self,
        kind: &ItemKind,
        at: usize,
        subs: &Substitutions,
    ) -> Result<(), AllocError>
        ensures { OnOk result ((above : List Item) (x : Item) → IsLookupOf self.old subs.now above →
            at ≡ length above → x.kind ≡ kind.now → IsLookupOf self.new subs.now (above ++ x ∷ [])) }
    {
        match self {
            Lookup::Index(index) => index.push(kind, at, subs),
            Lookup::Walk => Ok(()),
        }
    }

    /// The index of the last of the items that is code and defines the register.
    fn last_definition(&self, above: &[Item], s: Reg) -> Option<usize>
        ensures { (subs : List DebugSubstitution) → IsLookupOf self.now subs above.now →
            result ≡ last_definition s above.now }
    {
        match self {
            Lookup::Index(index) => index.last_definition(s),
            Lookup::Walk => last_definition(above, s),
        }
    }

    /// Whether a debug value after the item at index `d` refers to the number.
    fn asks_behind(
        &self,
        above: &[Item],
        subs: &Substitutions,
        number: DebugNumber,
        d: usize,
    ) -> bool
        requires at { d < length above.now }
        ensures { IsLookupOf self.now subs.now above.now →
            result ≡ list_any (λ x. asks_for subs.now number x.kind) (drop (suc d) above.now) }
    {
        match self {
            Lookup::Index(index) => index.asks_behind(number, d),
            Lookup::Walk => ask_for(&above[d + 1..], subs, number),
        }
    }

    /// Adds the substitution of operand 0 of a number, which has none, by an operand of another number.
    pub(crate) fn substitute(
        &mut self,
        alloc: Global,
        subs: &mut Substitutions,
        above: &[Item],
        number: DebugNumber,
        standing: DebugNumber,
        operand: OperandIndex,
    ) -> Result<(), AllocError>
        requires { has_entry subs.old (Some number) 0 ≡ false }
        ensures entries { OnOk result (subs.new ≡ subs.old ++ entry_for number standing operand ∷ []) }
        ensures lookup { OnOk result (IsLookupOf self.old subs.old above.now → IsLookupOf self.new subs.new above.now) }
    {
        match self {
            Lookup::Index(index) => {
                substitute(alloc, subs, index, above, number, standing, operand)
            }
            Lookup::Walk => subs.add(entry_for(number, standing, operand)),
        }
    }
}

/// How the number of a removed copy of `source` is salvaged, below these items of its block. `removed` has for each item
/// of the block whether it is removed too. `fresh` is the number that code without one would get. It takes no memory. By
/// an index it takes constant time, except for the look-ups of substitutions.
pub(crate) fn choose_way(
    lookup: &Lookup,
    above: &[Item],
    subs: &Substitutions,
    removed: &[bool],
    number: DebugNumber,
    source: Reg,
    fresh: DebugNumber,
) -> SalvageAction
    requires { IsLookupOf lookup.now subs.now above.now }
    ensures chosen { result ≡ salvage_action (going_from 0 removed.now) subs.now fresh number source above.now }
    ensures within { (d o n : ℕ) → result ≡ chosen.GetsEntry d o n → d < length above.now }
{
    if has_entry(subs, &Some(number), OperandIndex(0)) {
        return SalvageAction::HasEntry;
    }
    let Some(d) = lookup.last_definition(above, source) else {
        return SalvageAction::GetsPhi;
    };
    choose_by(lookup, above, subs, removed, number, source, fresh, d)
}

/// The choice by the code at index `d`, the last above the copy that defines the source, where the number has no
/// substitution.
fn choose_by(
    lookup: &Lookup,
    above: &[Item],
    subs: &Substitutions,
    removed: &[bool],
    number: DebugNumber,
    source: Reg,
    fresh: DebugNumber,
    d: usize,
) -> SalvageAction
    requires lookup { IsLookupOf lookup.now subs.now above.now }
    requires free { has_entry subs.now (Some number) 0 ≡ false }
    requires last { last_definition source above.now ≡ Some d }
    requires at { d < length above.now }
    ensures { result ≡ salvage_action (going_from 0 removed.now) subs.now fresh number source above.now }
{
    match &above[d].kind {
        ItemKind::Code(i, n) => {
            let barred = is_barred(lookup, above, subs, removed, number, d);
            let operand = first_definition(i, source);
            action_unless(barred, subs, fresh, d, n, operand)
        }
        ItemKind::Mark(_, _) => SalvageAction::GetsPhi,
        ItemKind::Phi(_, _) => SalvageAction::GetsPhi,
    }
}

/// Whether the code at index `d` is removed too, or a debug value after it refers to the number.
fn is_barred(
    lookup: &Lookup,
    above: &[Item],
    subs: &Substitutions,
    removed: &[bool],
    number: DebugNumber,
    d: usize,
) -> bool
    requires at { d < length above.now }
    ensures { IsLookupOf lookup.now subs.now above.now → result ≡ (list_any (nat_eq d) (going_from 0 removed.now)
        || list_any (λ x. asks_for subs.now number x.kind) (drop (suc d) above.now)) }
{
    is_removed(removed, d) || lookup.asks_behind(above, subs, number, d)
}
