//! An index of the items above a position of a block, by which the salvage of a copy is chosen in constant time.

ghost use Rattle.std.specs.Prelude.{◌≡◌, ◌++◌, ◌||◌, [], ◌∷◌, List, ℕ, cond, nat_eq, Some, None, length};
ghost use Rattle.std.specs.Prelude.{drop, suc, false};
ghost use Rattle.std.specs.Prelude.{IfOk, OnOk};
ghost use Rattle.std.specs.List.{list_any};
ghost use Rattle.std.specs.HashMap.{get};
ghost use Rattle.rv64_instr.specs.Row.{Row};
ghost use Rattle.rv64_instr.specs.DefsAndUses.{sets};
ghost use Rattle.rv64_instr.specs.Decoded.{Shows};
ghost use Rattle.mir_func.specs.declared.item.Item.{Item};
ghost use Rattle.mir_func.specs.declared.debug_substitution.DebugSubstitution.{DebugSubstitution};
ghost use Rattle.rv64_instr.specs.declared.place.Place.TheVariants as place;
ghost use Rattle.pass_trait.specs.Causes.{defines};
ghost use Rattle.pass_trait.specs.Rule.{first_operand};
ghost use Rattle.pass_salvage.specs.SalvageAction.{has_entry, asks_for, is_just, last_definition};
ghost use Rattle.pass_salvage.specs.Salvage.{entry_for};
ghost use Rattle.pass_salvage.specs.Above.{IsIndexOf, is_past, later, moved};

use crate::salvage::entry_for;
use crate::salvage_action::has_entry;
use base_ids::function_ids::{DebugNumber, OperandIndex};
use mir_func::debug_substitution::OperandPair;
use mir_func::item::{Item, ItemKind};
use mir_func::variable::MarkValue;
use pass_trait::mir_substitution_crate::substitutions::Substitutions;
use rv64_instr::decoded::Decoded;
use rv64_instr::effects::CALLER_SAVED;
use rv64_instr::reg::Reg;
use std::alloc::{AllocError, Global};
use std::collections::HashMap;

/// An index of items: where registers are defined and numbers are referred to.
#[derive(Drop)]
pub struct Above {
    /// The index of the last code that defines each register.
    pub definitions: HashMap<u32, usize>,
    /// The index of the last debug value of a pair that resolves to operand 0 of each number.
    pub questions: HashMap<u32, usize>,
}

impl Above {
    /// The index of no items. It takes no memory.
    pub fn new(alloc: Global) -> Above
        ensures { (subs : List DebugSubstitution) → IsIndexOf result subs [] }
    {
        Above {
            definitions: HashMap::new(alloc),
            questions: HashMap::new(alloc),
        }
    }

    /// Builds the index of these items.
    pub fn of(alloc: Global, above: &[Item], subs: &Substitutions) -> Result<Above, AllocError>
        ensures { IfOk result (λ index. IsIndexOf index subs.now above.now) }
    {
        let mut index = Above::new(alloc);
        for at in 0..above.len() {
            index.push(&above[at].kind, at, subs)?;
        }
        Ok(index)
    }

    /// Adds the next item, which has this index.
    pub fn push(
        &mut self,
        kind: &ItemKind,
        at: usize,
        subs: &Substitutions,
    ) -> Result<(), AllocError>
        ensures { OnOk result ((above : List Item) (x : Item) → IsIndexOf self.old subs.now above →
            at ≡ length above → x.kind ≡ kind.now → IsIndexOf self.new subs.now (above ++ x ∷ [])) }
    {
        push_definition(&mut self.definitions, kind, at)?;
        push_question(&mut self.questions, kind, subs, at)?;
        Ok(())
    }

    /// The index of the last code that defines the register.
    pub(crate) fn last_definition(&self, s: Reg) -> Option<usize>
        ensures { (subs : List DebugSubstitution) (above : List Item) → IsIndexOf self.now subs above →
            result ≡ last_definition s above }
    {
        find_register(&self.definitions, s)
    }

    /// Whether a debug value after the item at an index refers to the number.
    pub(crate) fn asks_behind(&self, number: DebugNumber, d: usize) -> bool
        ensures { (subs : List DebugSubstitution) (above : List Item) → IsIndexOf self.now subs above →
            result ≡ list_any (λ x. asks_for subs number x.kind) (drop (suc d) above) }
    {
        is_past(d, find(&self.questions, number))
    }
}

/// The index in the table for a register.
fn find_register(table: &HashMap<u32, usize>, s: Reg) -> Option<usize>
    ensures { result ≡ get nat_eq table.now s }
{
    table.get(&s.number()).copied()
}

/// Whether the optional index is greater than `d`.
fn is_past(d: usize, last: Option<usize>) -> bool
    ensures { result ≡ is_past d last }
{
    match last {
        Some(at) => d < at,
        None => false,
    }
}

/// The index in the table for a number.
fn find(table: &HashMap<u32, usize>, number: DebugNumber) -> Option<usize>
    ensures { result ≡ get nat_eq table.now number }
{
    table.get(&number.number()).copied()
}

/// Removes a number from the table and returns its index.
fn take(table: &mut HashMap<u32, usize>, number: DebugNumber) -> Option<usize>
    ensures value { result ≡ get nat_eq table.old number }
    ensures others { (q : ℕ) → get nat_eq table.new q ≡ cond (nat_eq q number) None (get nat_eq table.old q) }
{
    table.remove(&number.number())
}

/// Maps a key to an index.
fn put(table: &mut HashMap<u32, usize>, key: u32, at: usize) -> Result<(), AllocError>
    ensures { OnOk result ((q : ℕ) → get nat_eq table.new q ≡ cond (nat_eq q key) (Some at) (get nat_eq table.old q)) }
{
    table.insert(key, at)?;
    Ok(())
}

/// Records the item at an index as the last definition of the registers that it defines.
fn push_definition(
    table: &mut HashMap<u32, usize>,
    kind: &ItemKind,
    at: usize,
) -> Result<(), AllocError>
    ensures { OnOk result ((s : ℕ) →
        get nat_eq table.new s ≡ cond (defines (place.Register s) kind.now) (Some at) (get nat_eq table.old s)) }
{
    match kind {
        ItemKind::Code(i, _) => push_code(table, &i.decoded(), at),
        ItemKind::Mark(_, _) => Ok(()),
        ItemKind::Phi(_, _) => Ok(()),
    }
}

/// Records the code at an index as the last definition of the registers that it defines.
fn push_code(
    table: &mut HashMap<u32, usize>,
    decoded: &Decoded,
    at: usize,
) -> Result<(), AllocError>
    ensures { OnOk result ((row : Row) → Shows decoded.now row → (s : ℕ) →
        get nat_eq table.new s ≡ cond (list_any (nat_eq s) (sets row)) (Some at) (get nat_eq table.old s)) }
{
    match *decoded {
        Decoded::Fixes(rd, _) => put_all(table, &[rd.number()], at),
        Decoded::Moves(rd, _) => put_all(table, &[rd.number()], at),
        Decoded::Sets(rd, _, _, _) => put_all(table, &[rd.number()], at),
        Decoded::Addresses(rd, _, _) => put_all(table, &[rd.number()], at),
        Decoded::Loads(rd, _, _, _) => put_all(table, &[rd.number()], at),
        Decoded::LoadsSlot(rd, _) => put_all(table, &[rd.number()], at),
        Decoded::Calls(_) => put_all(table, &CALLER_SAVED, at),
        Decoded::Stores(_, _, _, _)
        | Decoded::StoresSlot(_, _)
        | Decoded::Branches(_, _, _, _)
        | Decoded::Jumps(_)
        | Decoded::Returns(_) => Ok(()),
    }
}

/// Maps each of the keys to the index.
fn put_all(table: &mut HashMap<u32, usize>, keys: &[u32], at: usize) -> Result<(), AllocError>
    ensures { OnOk result ((s : ℕ) →
        get nat_eq table.new s ≡ cond (list_any (nat_eq s) keys.now) (Some at) (get nat_eq table.old s)) }
{
    for key in keys {
        put(table, *key, at)?;
    }
    Ok(())
}

/// Records the item at an index as the last reference to the number that it refers to.
fn push_question(
    table: &mut HashMap<u32, usize>,
    kind: &ItemKind,
    subs: &Substitutions,
    at: usize,
) -> Result<(), AllocError>
    ensures { OnOk result ((k : ℕ) →
        get nat_eq table.new k ≡ cond (asks_for subs.now k kind.now) (Some at) (get nat_eq table.old k)) }
{
    match kind {
        ItemKind::Mark(_, MarkValue::Pair(q)) => push_end(table, subs.resolve(*q), at),
        ItemKind::Mark(_, MarkValue::Nothing) => Ok(()),
        ItemKind::Mark(_, MarkValue::Constant(_)) => Ok(()),
        ItemKind::Mark(_, MarkValue::At(_)) => Ok(()),
        ItemKind::Phi(_, _) => Ok(()),
        ItemKind::Code(_, _) => Ok(()),
    }
}

/// Records the debug value at an index, whose pair resolves to `end`, as the last reference to that number, if the
/// operand is 0.
fn push_end(
    table: &mut HashMap<u32, usize>,
    end: Option<OperandPair>,
    at: usize,
) -> Result<(), AllocError>
    ensures { OnOk result ((k : ℕ) →
        get nat_eq table.new k ≡ cond (is_just (first_operand k) end) (Some at) (get nat_eq table.old k)) }
{
    match end {
        Some(p) => {
            if is_zero(p.operand) {
                put(table, p.number.number(), at)?;
            }
            Ok(())
        }
        None => Ok(()),
    }
}

/// Moves the references to a number to another number, or drops them if the operand isn't 0.
fn move_questions(
    table: &mut HashMap<u32, usize>,
    number: DebugNumber,
    standing: DebugNumber,
    operand: OperandIndex,
) -> Result<(), AllocError>
    requires { is_just (first_operand number) (Some (record { number = standing; operand = operand })) ≡ false }
    ensures { OnOk result ((q : ℕ) →
        get nat_eq table.new q ≡ moved (get nat_eq table.old) number standing operand q) }
{
    let Some(at) = take(table, number) else {
        return Ok(());
    };
    if is_zero(operand) {
        put_later(table, standing, at)?;
    }
    Ok(())
}

/// Whether it is operand 0.
fn is_zero(operand: OperandIndex) -> bool
    ensures { result ≡ nat_eq 0 operand }
{
    operand.number() == 0
}

/// Maps a number to an index, or keeps a greater one that it has.
fn put_later(
    table: &mut HashMap<u32, usize>,
    number: DebugNumber,
    at: usize,
) -> Result<(), AllocError>
    ensures { OnOk result ((q : ℕ) → get nat_eq table.new q
        ≡ cond (nat_eq q number) (later (Some at) (get nat_eq table.old number)) (get nat_eq table.old q)) }
{
    let last = later(at, find(table, number));
    put(table, number.number(), last)?;
    Ok(())
}

/// The greater of an index and an optional one.
fn later(at: usize, other: Option<usize>) -> usize
    ensures { Some result ≡ later (Some at) other }
{
    match other {
        Some(n) => { if at < n { n } else { at } }
        None => at,
    }
}

/// Adds the substitution of operand 0 of a number, which has none, by an operand of another number, and updates the
/// index of the items. It takes constant time if the other pair has no substitution and isn't the number's own, which
/// is so in every sound function; otherwise the index is rebuilt.
pub(crate) fn substitute(
    alloc: Global,
    subs: &mut Substitutions,
    index: &mut Above,
    above: &[Item],
    number: DebugNumber,
    standing: DebugNumber,
    operand: OperandIndex,
) -> Result<(), AllocError>
    requires { has_entry subs.old (Some number) 0 ≡ false }
    ensures entries { OnOk result (subs.new ≡ subs.old ++ entry_for number standing operand ∷ []) }
    ensures index { OnOk result (IsIndexOf index.old subs.old above.now → IsIndexOf index.new subs.new above.now) }
{
    let met = meets(subs, number, standing, operand);
    subs.add(entry_for(number, standing, operand))?;
    if met {
        *index = Above::of(alloc, above, subs)?;
    } else {
        move_questions(&mut index.questions, number, standing, operand)?;
    }
    Ok(())
}

/// Whether the operand of the other number has a substitution, or is operand 0 of the same number.
fn meets(
    subs: &Substitutions,
    number: DebugNumber,
    standing: DebugNumber,
    operand: OperandIndex,
) -> bool
    ensures { result ≡ (has_entry subs.now (Some standing) operand
        || is_just (first_operand number) (Some (record { number = standing; operand = operand }))) }
{
    has_entry(subs, &Some(standing), operand) || is_first(number, standing, operand)
}

/// Whether the operand of the other number is operand 0 of the same number.
fn is_first(number: DebugNumber, standing: DebugNumber, operand: OperandIndex) -> bool
    ensures { result ≡ is_just (first_operand number) (Some (record { number = standing; operand = operand })) }
{
    number == standing && operand.number() == 0
}
