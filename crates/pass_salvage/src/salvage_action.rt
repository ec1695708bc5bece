//! How the debug instruction number of a removed copy is salvaged.

ghost use Rattle.std.specs.Prelude.{◌≡◌, ◌<◌, ◌&&◌, Some, nat_eq, not, false, length, slice_index_or, IfSome};
ghost use Rattle.std.specs.List.{list_any};
ghost use Rattle.rv64_instr.specs.declared.place.Place.TheVariants as place;
ghost use Rattle.rv64_instr.specs.Row.{row_of};
ghost use Rattle.rv64_instr.specs.LocationEffects.{is_call};
ghost use Rattle.sem_agreement.specs.sem_mir.Step.{defined};
ghost use Rattle.pass_trait.specs.Causes.{defines};
ghost use Rattle.pass_salvage.specs.SalvageAction.{last_definition, is_register, first_definition, asks_for, has_entry};
ghost use Rattle.pass_salvage.specs.SalvageAction.{or_fresh, going_from};
ghost use Rattle.pass_salvage.specs.Above.{action_unless};

use base_ids::function_ids::{DebugNumber, OperandIndex};
use mir_func::debug_substitution::OperandPair;
use mir_func::item::{Item, ItemKind};
use mir_func::variable::MarkValue;
use pass_trait::mir_substitution_crate::substitutions::Substitutions;
use rv64_instr::instr::Instr;
use rv64_instr::operand::Operand;
use rv64_instr::place::Place;
use rv64_instr::reg::Reg;

/// How the debug instruction number of a removed copy is salvaged (LLVM: salvaging of debug information).
#[derive(Clone, Copy, Debug, PartialEq, Eq)]
pub enum SalvageAction {
    /// Nothing is needed: its pair has a substitution already.
    HasEntry,
    /// Its pair is substituted by an operand of the code at this index, which has this number or gets it.
    GetsEntry(usize, OperandIndex, DebugNumber),
    /// A DBG_PHI replaces the copy.
    GetsPhi,
}

/// The choice by the code at index `d`, with its own number and the operand that defines the source, unless that is
/// barred.
pub(crate) fn action_unless(
    barred: bool,
    subs: &Substitutions,
    fresh: DebugNumber,
    d: usize,
    own: &Option<DebugNumber>,
    operand: Option<usize>,
) -> SalvageAction
    ensures { result ≡ action_unless barred subs.now fresh d own.now operand }
{
    let Some(o) = operand else {
        return SalvageAction::GetsPhi;
    };
    let Ok(index) = u32::try_from(o) else {
        return SalvageAction::GetsPhi;
    };
    if may_stand(barred, subs, own, OperandIndex(index)) {
        SalvageAction::GetsEntry(d, OperandIndex(index), or_fresh(own, fresh))
    } else {
        SalvageAction::GetsPhi
    }
}

/// Whether the code can replace the copy by the operand: it isn't barred, and the pair has no substitution.
fn may_stand(
    barred: bool,
    subs: &Substitutions,
    own: &Option<DebugNumber>,
    operand: OperandIndex,
) -> bool
    ensures { result ≡ (not (has_entry subs.now own.now operand) && not barred) }
{
    !has_entry(subs, own, operand) && !barred
}

/// Whether the item of an index is removed too.
pub(crate) fn is_removed(removed: &[bool], d: usize) -> bool
    ensures { result ≡ list_any (nat_eq d) (going_from 0 removed.now) }
{
    flag_at(removed, d)
}

/// The flag at an index; false if there is none.
fn flag_at(flags: &[bool], index: usize) -> bool
    ensures { result ≡ slice_index_or flags.now index false }
{
    match flags.get(index) {
        Some(set) => *set,
        None => false,
    }
}

/// The code's own number, or the fresh one if it has none.
fn or_fresh(own: &Option<DebugNumber>, fresh: DebugNumber) -> DebugNumber
    ensures { result ≡ or_fresh fresh own.now }
{
    match own {
        Some(n) => *n,
        None => fresh,
    }
}

/// The index of the last code that defines the register.
pub(crate) fn last_definition(items: &[Item], s: Reg) -> Option<usize>
    ensures found { result ≡ last_definition s items.now }
    ensures within { IfSome result (λ d. d < length items.now) }
{
    let mut at = items.len();
    while at > 0 {
        at -= 1;
        if defines(&items[at].kind, s) {
            return Some(at);
        }
    }
    None
}

/// Whether it is code that defines the register.
fn defines(kind: &ItemKind, s: Reg) -> bool
    ensures { result ≡ defines (place.Register s) kind.now }
{
    match kind {
        ItemKind::Code(i, _) => i.defines(Place::Register(s)),
        ItemKind::Mark(_, _) | ItemKind::Phi(_, _) => false,
    }
}

/// The index of the first operand that defines the register.
pub(crate) fn first_definition(i: &Instr, s: Reg) -> Option<usize>
    ensures { result ≡ first_definition (is_call (row_of i.now)) s i.now.operands }
{
    let call = i.effect().call;
    first_in(call, s, i.operands.as_slice())
}

/// The index of the first of these operands that defines the register; an implicit definition counts only if `call`.
fn first_in(call: bool, s: Reg, operands: &[Operand]) -> Option<usize>
    ensures { result ≡ first_definition call s operands.now }
{
    for o in 0..operands.len() {
        if is_definition(call, s, &operands[o]) {
            return Some(o);
        }
    }
    None
}

/// Whether the operand defines the register; an implicit definition counts only if `call`.
fn is_definition(call: bool, s: Reg, operand: &Operand) -> bool
    ensures { result ≡ is_register s (defined call (Some operand.now)) }
{
    match operand {
        Operand::Def(r) => *r == s,
        Operand::ImplicitDef(r) => call && *r == s,
        Operand::Use(_)
        | Operand::ImplicitUse(_)
        | Operand::Imm(_)
        | Operand::Slot(_)
        | Operand::Object(_)
        | Operand::Part(_, _)
        | Operand::Outgoing(_)
        | Operand::GlobalRegisters
        | Operand::Block(_)
        | Operand::Symbol(_)
        | Operand::Mask => false,
    }
}

/// Whether a pair of the number has a substitution.
pub(crate) fn has_entry(
    subs: &Substitutions,
    number: &Option<DebugNumber>,
    operand: OperandIndex,
) -> bool
    ensures { result ≡ has_entry subs.now number.now operand }
{
    match number {
        Some(number) => {
            let pair = OperandPair {
                number: *number,
                operand,
            };
            match subs.resolve(pair) {
                Some(end) => end != pair,
                None => true,
            }
        }
        None => false,
    }
}

/// Whether some of the items are debug values of a pair that resolves to operand 0 of the number.
pub(crate) fn ask_for(items: &[Item], subs: &Substitutions, number: DebugNumber) -> bool
    ensures { result ≡ list_any (λ x. asks_for subs.now number x.kind) items.now }
{
    items.iter().any(|x| asks_for(&x.kind, subs, number))
}

/// Whether it is a debug value of a pair that resolves to operand 0 of the number.
fn asks_for(kind: &ItemKind, subs: &Substitutions, number: DebugNumber) -> bool
    ensures { result ≡ asks_for subs.now number kind.now }
{
    match kind {
        ItemKind::Mark(_, MarkValue::Pair(q)) => match subs.resolve(*q) {
            Some(p) => number == p.number && p.operand.number() == 0,
            None => false,
        },
        ItemKind::Mark(_, MarkValue::Nothing)
        | ItemKind::Mark(_, MarkValue::Constant(_))
        | ItemKind::Mark(_, MarkValue::At(_))
        | ItemKind::Phi(_, _)
        | ItemKind::Code(_, _) => false,
    }
}
