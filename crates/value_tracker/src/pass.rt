//! The tracker's step over an item.

ghost use Rattle.std.specs.Prelude.{
  false,
  ◌≡◌,
  ◌<◌,
  ◌≤◌,
  ◌+◌,
  ◌^◌,
  ℕ,
  Some,
  OnOk,
  length,
  slice_get,
  slice_index,
  cond,
  nat_eq,
};
ghost use Rattle.std.specs.HashMap.{get};
ghost use Rattle.sem_mir.specs.Step.{defined as defined_by};
ghost use Rattle.mir_func.specs.declared.variable.VarId.{VarId};
ghost use Rattle.mir_func.specs.declared.item.ItemKind.TheVariants.{Code, Mark, Phi};
ghost use Rattle.mir_func.specs.Resolve.{resolve};
ghost use Rattle.mir_substitution.specs.Index.{is_key};
ghost use Rattle.value_tracker.specs.LocationTracker.{
  pair_class,
  resolved_class,
  value_class,
  at_class,
  place_class,
  operand_class,
  part_past,
  is_mark,
  Passes,
};

use crate::index::{TrackedIndex, key, number_class, pair_class};
use crate::location_tracker::{LocationTracker, PLACES, SLOTS_FROM, slot_place};
use crate::part_list::PartList;
use base_ids::function_ids::DebugNumber;
use mir_func::debug_substitution::OperandPair;
use mir_func::item::ItemKind;
use mir_func::variable::{MarkValue, VarId};
use mir_substitution::substitutions::Substitutions;
use rv64_instr::instr::Instr;
use rv64_instr::operand::Operand;
use rv64_instr::place::Place;
use rv64_instr::reg::Reg;
use sem_mir::operand::defined;
use std::alloc::AllocError;

/// The limit on classes, exclusive: memory runs out before it.
const MOST_CLASSES: usize = 1 << 62;

/// What is constant over the items of a block.
#[derive(Drop)]
pub struct Block<'a> {
    /// The positions of constants and pairs in the list of tracked entities.
    pub index: &'a TrackedIndex,
    /// The class of each tracked entity at the start of the block, or 0.
    pub settled: &'a [usize],
    /// The tracked parts of variables.
    pub variables: &'a PartList,
    /// The debug value substitutions, which pairs resolve by.
    pub subs: &'a Substitutions,
}

impl LocationTracker {
    /// The class of a pair.
    fn pair(&self, block: &Block, number: u32, operand: usize) -> usize
        ensures { result ≡ pair_class block.now.index.now block.now.settled.now self.now number operand }
    {
        match self.pairs.get(&(number, operand)) {
            Some(class) => *class,
            None => pair_class(block.index, block.settled, number, operand),
        }
    }

    fn resolved(&self, block: &Block, pair: Option<OperandPair>) -> usize
        ensures { result ≡ resolved_class block.now.index.now block.now.settled.now self.now pair }
    {
        match pair {
            None => 0,
            Some(q) => self.pair(block, q.number.number(), q.operand.number() as usize),
        }
    }

    /// The class of the value that a debug value assigns.
    fn value(&self, block: &Block, value: &MarkValue) -> usize
        ensures { result ≡ value_class block.now.index.now block.now.settled.now
            (resolve block.now.subs.now) self.now value.now }
    {
        match value {
            MarkValue::Nothing => 0,
            MarkValue::Constant(c) => number_class(block.index, block.settled, c.cast_unsigned()),
            MarkValue::At(r) => self.register(*r),
            MarkValue::Pair(q) => self.resolved(block, block.subs.resolve(*q)),
        }
    }

    /// The class of the value in a DBG_PHI's location, or 0 if it has none.
    fn at(&self, block: &Block, place: Option<Place>) -> usize
        ensures { result ≡ place_class block.now.index.now block.now.settled.now self.now place }
    {
        match place {
            None => 0,
            Some(p) => self.at_place(block, p),
        }
    }

    fn at_place(&self, block: &Block, place: Place) -> usize
        ensures { result ≡ at_class block.now.index.now block.now.settled.now self.now place }
    {
        match place {
            Place::Register(r) => self.register(r),
            Place::Slot(n) => self.place(slot_place(n)),
            Place::Const(c) => number_class(block.index, block.settled, c.cast_unsigned()),
        }
    }

    /// Sets the class of an operand's pair, if the operand defines a register.
    fn give_operand(
        &mut self,
        call: bool,
        k: DebugNumber,
        o: usize,
        operand: &Operand,
    ) -> Result<(), AllocError>
        ensures pairs { OnOk result ((q : ℕ × ℕ) → get is_key self.new.pairs q
            ≡ cond (is_key (k, o) q) (operand_class self.old.places.items (defined_by call (Some operand.now))
            (get is_key self.old.pairs q)) (get is_key self.old.pairs q)) }
        ensures places { self.new.places ≡ self.old.places }
        ensures parts { self.new.parts ≡ self.old.parts }
        ensures next { self.new.next ≡ self.old.next }
    {
        match defined(call, operand) {
            None => Ok(()),
            Some(r) => {
                let class = self.register(r);
                self.pairs.insert((k.number(), o), class)?;
                Ok(())
            }
        }
    }

    /// Sets the class of each pair that an instruction with a number defines to its register's class.
    fn give(&mut self, call: bool, k: DebugNumber, operands: &[Operand]) -> Result<(), AllocError>
        ensures pairs { OnOk result ((m o : ℕ) → get is_key self.new.pairs (m, o)
            ≡ cond (nat_eq k m) (operand_class self.old.places.items (defined_by call (slice_get operands.now o))
            (get is_key self.old.pairs (m, o))) (get is_key self.old.pairs (m, o))) }
        ensures places { self.new.places ≡ self.old.places }
        ensures parts { self.new.parts ≡ self.old.parts }
        ensures next { self.new.next ≡ self.old.next }
    {
        for (o, operand) in operands.iter().enumerate() {
            self.give_operand(call, k, o, operand)?;
        }
        Ok(())
    }

    fn pass_code(
        &mut self,
        block: &Block,
        instr: &Instr,
        number: Option<DebugNumber>,
    ) -> Result<(), AllocError>
        requires count { length self.old.places.items ≡ PLACES }
        ensures passes { OnOk result (Passes block.now.variables.now block.now.index.now block.now.settled.now
            (resolve block.now.subs.now) self.old self.new (Code instr.now number)) }
        ensures count { OnOk result (length self.new.places.items ≡ PLACES) }
        ensures parts { OnOk result (self.new.parts ≡ self.old.parts) }
    {
        if self.next >= MOST_CLASSES {
            return Err(AllocError);
        }
        self.pass_row(block.index, block.settled, instr);
        self.next += SLOTS_FROM;
        match number {
            None => Ok(()),
            Some(k) => self.give(instr.effect().call, k, instr.operands.as_slice()),
        }
    }

    fn pass_mark(&mut self, block: &Block, variable: &VarId, value: &MarkValue)
        requires count { length self.old.parts.items ≡ length block.now.variables.now }
        ensures passes { Passes block.now.variables.now block.now.index.now block.now.settled.now
            (resolve block.now.subs.now) self.old self.new (Mark variable.now value.now) }
        ensures places { self.new.places ≡ self.old.places }
        ensures count { length self.new.parts.items ≡ length block.now.variables.now }
    {
        let class = self.value(block, value);
        mark(&mut self.parts, block.variables, variable, class);
    }

    fn pass_phi(
        &mut self,
        block: &Block,
        place: Option<Place>,
        k: DebugNumber,
    ) -> Result<(), AllocError>
        ensures passes { OnOk result (Passes block.now.variables.now block.now.index.now block.now.settled.now
            (resolve block.now.subs.now) self.old self.new (Phi place k)) }
        ensures places { self.new.places ≡ self.old.places }
        ensures parts { self.new.parts ≡ self.old.parts }
    {
        let class = self.at(block, place);
        self.pairs.insert((k.number(), 0), class)?;
        Ok(())
    }

    /// Steps over an item: copies of values keep their classes, and new tokens have new classes. The error is out of
    /// memory.
    pub fn pass(&mut self, block: &Block, kind: &ItemKind) -> Result<(), AllocError>
        requires places { length self.old.places.items ≡ PLACES }
        requires parts { length self.old.parts.items ≡ length block.now.variables.now }
        ensures passes { OnOk result (Passes block.now.variables.now block.now.index.now block.now.settled.now
            (resolve block.now.subs.now) self.old self.new kind.now) }
        ensures places { OnOk result (length self.new.places.items ≡ PLACES) }
        ensures parts { OnOk result (length self.new.parts.items ≡ length block.now.variables.now) }
        ensures stay { OnOk result (is_mark kind.now ≡ false → self.new.parts ≡ self.old.parts) }
    {
        match kind {
            ItemKind::Code(instr, number) => self.pass_code(block, instr, *number),
            ItemKind::Mark(variable, value) => {
                self.pass_mark(block, variable, value);
                Ok(())
            }
            ItemKind::Phi(place, k) => self.pass_phi(block, *place, *k),
        }
    }
}

/// Whether the item is a debug value.
pub fn is_mark(kind: &ItemKind) -> bool
    ensures { result ≡ is_mark kind.now }
{
    match kind {
        ItemKind::Code(_, _) => false,
        ItemKind::Mark(_, _) => true,
        ItemKind::Phi(_, _) => false,
    }
}

/// Sets the class of a part of a variable, and clears those of the parts that overlap. It looks at the parts of that
/// variable alone.
fn mark(parts: &mut Vec<usize>, variables: &PartList, variable: &VarId, class: usize)
    requires { length parts.old.items ≡ length variables.now }
    ensures past { (j : ℕ) (w : VarId) → slice_get variables.now j ≡ Some w
        → slice_index parts.new.items j ≡ part_past variable.now class w (slice_index parts.old.items j) }
    ensures count { length parts.new.items ≡ length variables.now }
{
    let all = variables.as_slice();
    let mut end = variables.end(variable);
    while end > 0 {
        let j = end - 1;
        mark_part(parts, j, &all[j], variable, class);
        end = variables.end_before(j);
    }
}

/// Sets the class of the part at an index past a debug value of a part.
fn mark_part(parts: &mut Vec<usize>, j: usize, part: &VarId, marked: &VarId, class: usize)
    requires { j < length parts.old.items }
    ensures here { slice_index parts.new.items j ≡ part_past marked.now class part.now (slice_index parts.old.items j) }
    ensures others { (i : ℕ) → (i ≡ j → ⊥) → slice_index parts.new.items i ≡ slice_index parts.old.items i }
    ensures count { length parts.new.items ≡ length parts.old.items }
{
    parts[j] = part_past(marked, class, part, parts[j]);
}

/// The class of a part past a debug value of a part.
fn part_past(marked: &VarId, class: usize, part: &VarId, old: usize) -> usize
    ensures { result ≡ part_past marked.now class part.now old }
{
    if *part == *marked {
        class
    } else if part.overlaps(marked) {
        0
    } else {
        old
    }
}
