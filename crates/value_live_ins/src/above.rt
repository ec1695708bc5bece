//! The pairs that items of a block define above a debug value.

ghost use Rattle.std.specs.Prelude.{◌≡◌, ◌+◌, ◌&&◌, ℕ, List, OnOk, IsTrue, Contains, Some, is_some, nat_eq, slice_get, take};
ghost use Rattle.std.specs.HashMap.{get};
ghost use Rattle.mir_func.specs.declared.item.ItemKind.TheVariants.{Code};
ghost use Rattle.mir_func.specs.Resolve.{resolve};
ghost use Rattle.sem_mir.specs.Step.{defined as defined_by};
ghost use Rattle.sem_value_ids.specs.Pullback.{Tracked as Entity, OfPair};
ghost use Rattle.value_proof.specs.Classes.{KnowsPair, KnowsValue, pairs_of, known_past};
ghost use Rattle.value_live_ins.specs.Above.{AreAbove, DefinesAt};
ghost use Rattle.value_live_ins.specs.Gathering.{KnowsPassed};

use base_ids::function_ids::DebugNumber;
use mir_func::debug_substitution::OperandPair;
use mir_func::item::{Item, ItemKind};
use mir_func::variable::MarkValue;
use mir_substitution::substitutions::Substitutions;
use rv64_instr::instr::Instr;
use rv64_instr::operand::Operand;
use sem_mir::operand::defined;
use std::alloc::{AllocError, Global};
use std::collections::HashMap;

/// The indices of a block's items by their debug instruction numbers, of items with one number the last.
#[derive(Drop)]
pub struct NumberedItems {
    indices: HashMap<u32, usize>,
}

impl NumberedItems {
    /// Those of no items.
    pub fn new(alloc: Global) -> NumberedItems
        ensures { AreAbove 0 result }
    {
        NumberedItems {
            indices: HashMap::new(alloc),
        }
    }

    /// Adds the item at an index, below all others. The error is out of memory.
    pub fn add(&mut self, i: usize, kind: &ItemKind) -> Result<(), AllocError>
        ensures { OnOk result (AreAbove i self.old → AreAbove (i + 1) self.new) }
    {
        match kind {
            ItemKind::Code(_, number) => self.set(*number, i),
            ItemKind::Mark(_, _) => Ok(()),
            ItemKind::Phi(_, n) => self.set(Some(*n), i),
        }
    }

    fn set(&mut self, number: Option<DebugNumber>, i: usize) -> Result<(), AllocError>
        ensures { OnOk result (AreAbove i self.old → AreAbove (i + 1) self.new) }
    {
        match number {
            None => Ok(()),
            Some(n) => self.put(n.number(), i),
        }
    }

    fn put(&mut self, number: u32, i: usize) -> Result<(), AllocError>
        ensures { OnOk result (AreAbove i self.old → AreAbove (i + 1) self.new) }
    {
        self.indices.insert(number, i)?;
        Ok(())
    }

    fn index_of(&self, number: u32) -> Option<usize>
        ensures { result ≡ get nat_eq self.now.indices number }
    {
        self.indices.get(&number).copied()
    }

    /// Whether the last of these items with a number defines the pair of it and an operand.
    fn define(&self, items: &[Item], number: u32, operand: usize) -> bool
        ensures { IsTrue result → (k : ℕ) (known : List Entity) → AreAbove k self.now →
            Contains (known_past known (take k items.now)) (OfPair number operand) }
    {
        match self.index_of(number) {
            None => false,
            Some(i) => defines_at(items, i, number, operand),
        }
    }

    /// Whether an item is a debug value that reads a pair which one of these items defines.
    pub fn define_read(&self, items: &[Item], subs: &Substitutions, kind: &ItemKind) -> bool
        ensures { IsTrue result → (k : ℕ) (known : List Entity) → AreAbove k self.now →
            KnowsPassed (known_past known (take k items.now)) (resolve subs.now) kind.now }
    {
        match kind {
            ItemKind::Code(_, _) => false,
            ItemKind::Mark(_, value) => self.define_value(items, subs, value),
            ItemKind::Phi(_, _) => false,
        }
    }

    fn define_value(&self, items: &[Item], subs: &Substitutions, value: &MarkValue) -> bool
        ensures { IsTrue result → (k : ℕ) (known : List Entity) → AreAbove k self.now →
            KnowsValue (known_past known (take k items.now)) (resolve subs.now) value.now }
    {
        match value {
            MarkValue::Nothing => false,
            MarkValue::Constant(_) => false,
            MarkValue::At(_) => false,
            MarkValue::Pair(pair) => self.define_end(items, subs.resolve(*pair)),
        }
    }

    /// Whether these items define what a pair resolved to.
    fn define_end(&self, items: &[Item], end: Option<OperandPair>) -> bool
        ensures { IsTrue result → (k : ℕ) (known : List Entity) → AreAbove k self.now →
            KnowsPair (known_past known (take k items.now)) end }
    {
        match end {
            None => false,
            Some(pair) => self.define(items, pair.number.number(), pair.operand.number() as usize),
        }
    }
}

/// Whether the item at an index defines a pair.
fn defines_at(items: &[Item], i: usize, number: u32, operand: usize) -> bool
    ensures { IsTrue result → DefinesAt items.now i number operand }
{
    if i >= items.len() {
        return false;
    }
    defines(&items[i].kind, number, operand)
}

/// Whether an item defines a pair.
fn defines(kind: &ItemKind, number: u32, operand: usize) -> bool
    ensures { IsTrue result → Contains (pairs_of kind.now) (OfPair number operand) }
{
    match kind {
        ItemKind::Code(instr, own) => code_defines(instr, *own, number, operand),
        ItemKind::Mark(_, _) => false,
        ItemKind::Phi(_, n) => is_first(*n, number, operand),
    }
}

/// Whether code with a debug instruction number, or without one, defines a pair.
fn code_defines(instr: &Instr, own: Option<DebugNumber>, number: u32, operand: usize) -> bool
    ensures { IsTrue result → Contains (pairs_of (Code instr.now own)) (OfPair number operand) }
{
    match own {
        None => false,
        Some(n) => numbered_defines(instr, n, number, operand),
    }
}

fn numbered_defines(instr: &Instr, n: DebugNumber, number: u32, operand: usize) -> bool
    ensures { IsTrue result → Contains (pairs_of (Code instr.now (Some n))) (OfPair number operand) }
{
    if !is_number(n, number) {
        return false;
    }
    operand_defines(instr.effect().call, instr.operands.as_slice(), operand)
}

fn is_number(n: DebugNumber, number: u32) -> bool
    ensures { result ≡ nat_eq number n }
{
    number == n.number()
}

/// Whether a pair is operand 0 of a number, which a DBG_PHI defines.
fn is_first(n: DebugNumber, number: u32, operand: usize) -> bool
    ensures { result ≡ (nat_eq number n && nat_eq operand 0) }
{
    is_number(n, number) && operand == 0
}

/// Whether the operand at an index is there and defines a register.
fn operand_defines(call: bool, operands: &[Operand], o: usize) -> bool
    ensures { result ≡ is_some (defined_by call (slice_get operands.now o)) }
{
    match operands.get(o) {
        None => false,
        Some(operand) => defined(call, operand).is_some(),
    }
}
