//! The entities that items copy.

ghost use Rattle.std.specs.Prelude.{◌≡◌, ℕ, Option, Some, OnOk, All, map, Contains};
ghost use Rattle.rv64_instr.specs.Row.{row_of};
ghost use Rattle.mir_func.specs.declared.debug_substitution.OperandPair.{OperandPair};
ghost use Rattle.mir_func.specs.declared.item.ItemKind.TheVariants.{Code, Mark, Phi};
ghost use Rattle.mir_func.specs.declared.variable.VarId.{VarId};
ghost use Rattle.mir_func.specs.Resolve.{resolve};
ghost use Rattle.mir_func.specs.SoundFrame.{IsPhysical, HasPhysical, ValueIsPhysical, PlaceIsPhysical};
ghost use Rattle.value_proof.specs.Classes.{KnowsValue, KnowsPlace, KnowsRow};
ghost use Rattle.value_solver.specs.Entry.{thing};
ghost use Rattle.value_live_ins.specs.Gathering.{
  MayTrack,
  IsNoPart,
  IsGathered,
  Grows,
  AppendsOnly,
  HasOffsets,
  RowHasOffset,
  PlaceHasOffset,
  KnowsPassed,
};
ghost use Rattle.value_live_ins.specs.Used.{Names};

use crate::gather::TrackedItemSet;
use mir_func::item::ItemKind;
use mir_func::variable::MarkValue;
use mir_substitution::substitutions::Substitutions;
use rv64_instr::decoded::Decoded;
use rv64_instr::instr::Instr;
use rv64_instr::place::Place;
use std::alloc::AllocError;
use value_solver::tracked::Tracked;

impl TrackedItemSet {
    /// Adds an entity that is no part of a variable. The error is out of memory.
    pub fn note_thing(&mut self, thing: Tracked) -> Result<(), AllocError>
        requires gathered { IsGathered self.old }
        requires may { MayTrack thing }
        requires other { IsNoPart thing }
        ensures gathered { OnOk result (IsGathered self.new) }
        ensures grows { OnOk result (Grows self.old.things self.new.things) }
        ensures only { OnOk result (AppendsOnly (λ x. x ≡ thing) self.old.things self.new.things) }
        ensures has { OnOk result (Contains self.new.things thing) }
    {
        self.add(thing)?;
        Ok(())
    }

    /// Adds the entities that an instruction copies.
    fn note_code(&mut self, instr: &Instr) -> Result<(), AllocError>
        requires gathered { IsGathered self.old }
        requires offset { RowHasOffset (row_of instr.now) }
        requires physical { All IsPhysical instr.now.operands }
        ensures gathered { OnOk result (IsGathered self.new) }
        ensures grows { OnOk result (Grows self.old.things self.new.things) }
        ensures only { OnOk result ((ends : OperandPair → Option OperandPair) (k : Option ℕ) →
            AppendsOnly (Names ends (Code instr.now k)) self.old.things self.new.things) }
        ensures knows { OnOk result (KnowsRow (map thing self.new.things) (row_of instr.now)) }
    {
        match instr.decoded() {
            Decoded::Fixes(_, c) => self.note_thing(Tracked::Number(c)),
            Decoded::LoadsSlot(_, n) => self.note_thing(Tracked::Slot(n)),
            Decoded::StoresSlot(_, n) => self.note_thing(Tracked::Slot(n)),
            Decoded::Moves(_, _) => Ok(()),
            Decoded::Sets(_, _, _, _) => Ok(()),
            Decoded::Addresses(_, _, _) => Ok(()),
            Decoded::Loads(_, _, _, _) => Ok(()),
            Decoded::Stores(_, _, _, _) => Ok(()),
            Decoded::Branches(_, _, _, _) => Ok(()),
            Decoded::Jumps(_) => Ok(()),
            Decoded::Calls(_) => Ok(()),
            Decoded::Returns(_) => Ok(()),
        }
    }

    /// Adds the entity that a debug value reads.
    fn note_value(&mut self, subs: &Substitutions, value: &MarkValue) -> Result<(), AllocError>
        requires gathered { IsGathered self.old }
        requires physical { ValueIsPhysical value.now }
        ensures gathered { OnOk result (IsGathered self.new) }
        ensures grows { OnOk result (Grows self.old.things self.new.things) }
        ensures only { OnOk result ((v : VarId) →
            AppendsOnly (Names (resolve subs.now) (Mark v value.now)) self.old.things self.new.things) }
        ensures knows { OnOk result (KnowsValue (map thing self.new.things) (resolve subs.now) value.now) }
    {
        match value {
            MarkValue::Nothing => Ok(()),
            MarkValue::Constant(c) => self.note_thing(Tracked::Number(c.cast_unsigned())),
            MarkValue::At(_) => Ok(()),
            MarkValue::Pair(q) => match subs.resolve(*q) {
                None => Ok(()),
                Some(end) => self.note_thing(Tracked::Pair(end)),
            },
        }
    }

    /// Adds the entity that a DBG_PHI reads.
    fn note_place(&mut self, place: &Option<Place>) -> Result<(), AllocError>
        requires gathered { IsGathered self.old }
        requires offset { PlaceHasOffset place.now }
        requires physical { PlaceIsPhysical place.now }
        ensures gathered { OnOk result (IsGathered self.new) }
        ensures grows { OnOk result (Grows self.old.things self.new.things) }
        ensures only { OnOk result ((ends : OperandPair → Option OperandPair) (k : ℕ) →
            AppendsOnly (Names ends (Phi place.now k)) self.old.things self.new.things) }
        ensures knows { OnOk result (KnowsPlace (map thing self.new.things) place.now) }
    {
        match place {
            None => Ok(()),
            Some(Place::Register(_)) => Ok(()),
            Some(Place::Slot(n)) => self.note_thing(Tracked::Slot(*n)),
            Some(Place::Const(c)) => self.note_thing(Tracked::Number(c.cast_unsigned())),
        }
    }

    /// Adds the entities that an item copies. The error is out of memory.
    pub fn note(&mut self, subs: &Substitutions, kind: &ItemKind) -> Result<(), AllocError>
        requires gathered { IsGathered self.old }
        requires offset { HasOffsets kind.now }
        requires physical { HasPhysical kind.now }
        ensures gathered { OnOk result (IsGathered self.new) }
        ensures grows { OnOk result (Grows self.old.things self.new.things) }
        ensures only { OnOk result (AppendsOnly (Names (resolve subs.now) kind.now) self.old.things self.new.things) }
        ensures knows { OnOk result (KnowsPassed (map thing self.new.things) (resolve subs.now) kind.now) }
    {
        match kind {
            ItemKind::Code(instr, _) => self.note_code(instr),
            ItemKind::Mark(_, value) => self.note_value(subs, value),
            ItemKind::Phi(place, _) => self.note_place(place),
        }
    }
}
