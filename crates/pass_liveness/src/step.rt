//! The transfer step of a set over one item.

ghost use Rattle.std.specs.Prelude.{◌≡◌, ◌<◌, ◌||◌, ◌&&◌, not, All};
ghost use Rattle.rv64_instr.specs.declared.place.Place.{Place};
ghost use Rattle.rv64_instr.specs.Row.{Row, row_of};
ghost use Rattle.rv64_instr.specs.Decoded.{Shows};
ghost use Rattle.rv64_instr.specs.LocationEffects.{uses_of, defines_of, is_passed};
ghost use Rattle.mir_func.specs.Sound.{SlotIn, PassedIn, SlotsIn};
ghost use Rattle.pass_liveness.specs.Sets.{has};
ghost use Rattle.pass_liveness.specs.Walk.{live_before};
ghost use Rattle.pass_liveness.specs.Steps.{place_defined, reads_implicitly, is_read, is_among};

use crate::names::SlotAndBlockNumbers;
use crate::set::PlaceSet;
use mir_func::item::ItemKind;
use rv64_instr::decoded::Decoded;
use rv64_instr::effects::{CALLER_SAVED, GLOBAL_REGISTERS};
use rv64_instr::instr::Instr;
use rv64_instr::operand::Operand;
use rv64_instr::place::Place;
use rv64_instr::reg::physical;

/// The place that it sets by an explicit operand, x0 too. None for a call.
fn place_defined(decoded: &Decoded) -> Option<Place>
    ensures { (row : Row) → Shows decoded.now row → result ≡ place_defined row }
{
    match *decoded {
        Decoded::Fixes(rd, _) => Some(Place::Register(rd)),
        Decoded::Moves(rd, _) => Some(Place::Register(rd)),
        Decoded::Sets(rd, _, _, _) => Some(Place::Register(rd)),
        Decoded::Addresses(rd, _, _) => Some(Place::Register(rd)),
        Decoded::Loads(rd, _, _, _) => Some(Place::Register(rd)),
        Decoded::LoadsSlot(rd, _) => Some(Place::Register(rd)),
        Decoded::StoresSlot(_, n) => Some(Place::Slot(n)),
        Decoded::Stores(_, _, _, _)
        | Decoded::Branches(_, _, _, _)
        | Decoded::Jumps(_)
        | Decoded::Calls(_)
        | Decoded::Returns(_) => None,
    }
}

impl SlotAndBlockNumbers {
    /// The transfer step: from what is live after an item to what is live before it.
    pub fn step_up(&self, set: &mut PlaceSet, kind: &ItemKind)
        ensures { SlotsIn self.now.slots kind.now → (x : Place) →
            has self.now.slots set.new x ≡ live_before kind.now (has self.now.slots set.old x) x }
    {
        match kind {
            ItemKind::Code(i, _) => self.over_code(set, i),
            ItemKind::Mark(_, _) | ItemKind::Phi(_, _) => {}
        }
    }

    fn over_code(&self, set: &mut PlaceSet, i: &Instr)
        ensures { SlotIn self.now.slots (row_of i.now) × All (PassedIn self.now.slots) i.now.operands → (x : Place) →
            has self.now.slots set.new x
            ≡ (uses_of i.now x || (has self.now.slots set.old x && not (defines_of (row_of i.now) x))) }
    {
        let decoded = i.decoded();
        let operands = i.operands.as_slice();
        match decoded {
            Decoded::Calls(callee) => {
                self.remove_registers(set, &CALLER_SAVED);
                self.remove_passed(set, operands);
                self.insert_implicit(set, operands);
                self.insert_passed(set, operands);
                self.insert(set, callee.place());
            }
            Decoded::Returns(_) => {
                self.insert_implicit(set, operands);
                self.insert_passed(set, operands);
            }
            Decoded::Jumps(_)
            | Decoded::Branches(_, _, _, _)
            | Decoded::Fixes(_, _)
            | Decoded::Moves(_, _)
            | Decoded::Sets(_, _, _, _)
            | Decoded::Addresses(_, _, _)
            | Decoded::Loads(_, _, _, _)
            | Decoded::LoadsSlot(_, _)
            | Decoded::Stores(_, _, _, _)
            | Decoded::StoresSlot(_, _) => {
                self.remove(set, place_defined(&decoded));
                let effect = i.effect();
                self.insert(set, effect.uses[0]);
                self.insert(set, effect.uses[1]);
            }
        }
    }

    /// Removes what an instruction sets. It takes no memory.
    pub fn remove_defined(&self, set: &mut PlaceSet, i: &Instr)
        ensures { (x : Place) →
            has self.now.slots set.new x ≡ (has self.now.slots set.old x && not (defines_of (row_of i.now) x)) }
    {
        let decoded = i.decoded();
        match decoded {
            Decoded::Calls(_) => {
                self.remove_registers(set, &CALLER_SAVED);
                self.remove_passed(set, i.operands.as_slice());
            }
            Decoded::Returns(_)
            | Decoded::Jumps(_)
            | Decoded::Branches(_, _, _, _)
            | Decoded::StoresSlot(_, _)
            | Decoded::LoadsSlot(_, _)
            | Decoded::Stores(_, _, _, _)
            | Decoded::Loads(_, _, _, _)
            | Decoded::Addresses(_, _, _)
            | Decoded::Sets(_, _, _, _)
            | Decoded::Moves(_, _)
            | Decoded::Fixes(_, _) => self.remove(set, place_defined(&decoded)),
        }
    }

    /// Adds what an instruction sets. It takes no memory.
    pub fn insert_defined(&self, set: &mut PlaceSet, i: &Instr)
        ensures { SlotIn self.now.slots (row_of i.now) × All (PassedIn self.now.slots) i.now.operands → (x : Place) →
            has self.now.slots set.new x ≡ (defines_of (row_of i.now) x || has self.now.slots set.old x) }
    {
        let decoded = i.decoded();
        match decoded {
            Decoded::Calls(_) => {
                self.insert_registers(set, &CALLER_SAVED);
                self.insert_passed(set, i.operands.as_slice());
            }
            Decoded::Loads(_, _, _, _)
            | Decoded::LoadsSlot(_, _)
            | Decoded::Fixes(_, _)
            | Decoded::Moves(_, _)
            | Decoded::Addresses(_, _, _)
            | Decoded::Sets(_, _, _, _)
            | Decoded::Stores(_, _, _, _)
            | Decoded::StoresSlot(_, _)
            | Decoded::Branches(_, _, _, _)
            | Decoded::Returns(_)
            | Decoded::Jumps(_) => self.insert(set, place_defined(&decoded)),
        }
    }

    /// Adds registers.
    fn insert_registers(&self, set: &mut PlaceSet, numbers: &[u32])
        requires { All (λ n. n < 32) numbers.now }
        ensures { (x : Place) →
            has self.now.slots set.new x ≡ (is_among x numbers.now || has self.now.slots set.old x) }
    {
        for n in numbers {
            if let Some(r) = physical(*n) {
                self.insert(set, Some(Place::Register(r)));
            }
        }
    }

    /// Removes registers.
    fn remove_registers(&self, set: &mut PlaceSet, numbers: &[u32])
        requires { All (λ n. n < 32) numbers.now }
        ensures { (x : Place) →
            has self.now.slots set.new x ≡ (has self.now.slots set.old x && not (is_among x numbers.now)) }
    {
        for n in numbers {
            if let Some(r) = physical(*n) {
                self.remove(set, Some(Place::Register(r)));
            }
        }
    }

    /// Adds the registers that operands read implicitly.
    fn insert_implicit(&self, set: &mut PlaceSet, operands: &[Operand])
        ensures { (x : Place) →
            has self.now.slots set.new x ≡ (reads_implicitly x operands.now || has self.now.slots set.old x) }
    {
        for operand in operands {
            self.insert_read(set, operand);
        }
    }

    /// Adds the registers that an operand reads implicitly.
    fn insert_read(&self, set: &mut PlaceSet, operand: &Operand)
        ensures { (x : Place) → has self.now.slots set.new x ≡ (is_read x operand.now || has self.now.slots set.old x) }
    {
        match operand {
            Operand::ImplicitUse(r) => self.insert(set, Some(Place::Register(*r))),
            Operand::GlobalRegisters => self.insert_registers(set, &GLOBAL_REGISTERS),
            _ => {}
        }
    }

    /// Adds the slots that operands pass to a callee.
    fn insert_passed(&self, set: &mut PlaceSet, operands: &[Operand])
        ensures { All (PassedIn self.now.slots) operands.now → (x : Place) →
            has self.now.slots set.new x ≡ (is_passed x operands.now || has self.now.slots set.old x) }
    {
        for operand in operands {
            if let Operand::Outgoing(n) = operand {
                self.insert(set, Some(Place::Slot(*n)));
            }
        }
    }

    /// Removes the slots that operands pass to a callee.
    fn remove_passed(&self, set: &mut PlaceSet, operands: &[Operand])
        ensures { (x : Place) →
            has self.now.slots set.new x ≡ (has self.now.slots set.old x && not (is_passed x operands.now)) }
    {
        for operand in operands {
            if let Operand::Outgoing(n) = operand {
                self.remove(set, Some(Place::Slot(*n)));
            }
        }
    }
}
