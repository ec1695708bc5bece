//! Which places have which known constant values along a block.

ghost use Rattle.std.specs.Prelude.{◌≡◌, cond, None, Some, [], ◌∷◌, OnOk};
ghost use Rattle.rv64_instr.specs.declared.place.Place.{Place};
ghost use Rattle.rv64_instr.specs.LocationEffects.{is_passed};
ghost use Rattle.rv64_instr.specs.Row.{Row, Fixes, row_of};
ghost use Rattle.rv64_instr.specs.Decoded.{Shows};
ghost use Rattle.remat_pass.specs.Known.{number_in, with_slot, forgotten, learned, known_past};
ghost use Rattle.remat_pass.specs.Remat.{set_to, constant_set};
ghost use Rattle.remat_pass.specs.Table.{known_by, is_among};

use crate::constant::Constant;
use base_ids::function_ids::SlotId;
use mir_func::item::ItemKind;
use rv64_instr::decoded::Decoded;
use rv64_instr::effects::CALLER_SAVED;
use rv64_instr::instr::Instr;
use rv64_instr::operand::Operand;
use rv64_instr::reg::Reg;
use std::alloc::{AllocError, Global};
use std::collections::HashMap;

/// The known values of places, as numbers modulo 2^64.
#[derive(Drop)]
pub struct Known {
    pub registers: HashMap<u32, u64>,
    pub slots: HashMap<u32, u64>,
}

impl Known {
    /// Nothing is known. It takes no memory.
    pub fn new(alloc: Global) -> Known
        ensures { (x : Place) → known_by result.registers result.slots x ≡ None }
    {
        Known {
            registers: HashMap::new(alloc),
            slots: HashMap::new(alloc),
        }
    }

    /// The known value of a register: 0 for x0.
    fn number_in(&self, r: Reg) -> Option<u64>
        ensures { result ≡ number_in (known_by self.now.registers self.now.slots) r }
    {
        if r.number() == 0 {
            return Some(0);
        }
        self.registers.get(&r.number()).copied()
    }

    /// The known constant that code sets by a copy, except into x0, or by a slot load.
    pub fn constant_set(&self, decoded: &Decoded) -> Option<Constant>
        ensures { (row : Row) → Shows decoded.now row →
            result ≡ constant_set (known_by self.now.registers self.now.slots) row }
    {
        match *decoded {
            Decoded::Moves(rd, rs) => {
                if rd.number() == 0 {
                    None
                } else {
                    set_to(rd, self.number_in(rs))
                }
            }
            Decoded::LoadsSlot(rd, n) => set_to(rd, self.slots.get(&n.number()).copied()),
            Decoded::Fixes(_, _)
            | Decoded::Sets(_, _, _, _)
            | Decoded::Addresses(_, _, _)
            | Decoded::Loads(_, _, _, _)
            | Decoded::Stores(_, _, _, _)
            | Decoded::StoresSlot(_, _)
            | Decoded::Branches(_, _, _, _)
            | Decoded::Jumps(_)
            | Decoded::Calls(_)
            | Decoded::Returns(_) => None,
        }
    }

    /// Goes over an item: removes the values of what it sets, and adds the constants that it sets.
    pub fn pass(&mut self, kind: &ItemKind) -> Result<(), AllocError>
        ensures { OnOk result ((x : Place) → known_by self.new.registers self.new.slots x
            ≡ known_past kind.now (known_by self.old.registers self.old.slots) x) }
    {
        match kind {
            ItemKind::Code(i, _) => {
                let decoded = i.decoded();
                self.forget(i);
                self.learn(&decoded)?;
                Ok(())
            }
            ItemKind::Mark(_, _) | ItemKind::Phi(_, _) => Ok(()),
        }
    }

    /// Removes the values of what code sets.
    fn forget(&mut self, i: &Instr)
        ensures { (x : Place) → known_by self.new.registers self.new.slots x
            ≡ forgotten (row_of i.now) (known_by self.old.registers self.old.slots) x }
    {
        match i.decoded() {
            Decoded::Fixes(rd, _) => self.remove_register(rd.number()),
            Decoded::Moves(rd, _) => self.remove_register(rd.number()),
            Decoded::Sets(rd, _, _, _) => self.remove_register(rd.number()),
            Decoded::Addresses(rd, _, _) => self.remove_register(rd.number()),
            Decoded::Loads(rd, _, _, _) => self.remove_register(rd.number()),
            Decoded::LoadsSlot(rd, _) => self.remove_register(rd.number()),
            Decoded::StoresSlot(_, n) => self.remove_slot(n.number()),
            Decoded::Calls(_) => {
                self.remove_registers(&CALLER_SAVED);
                self.remove_passed(i.operands.as_slice());
            }
            Decoded::Stores(_, _, _, _)
            | Decoded::Branches(_, _, _, _)
            | Decoded::Jumps(_)
            | Decoded::Returns(_) => {}
        }
    }

    /// Adds the constants that code sets.
    fn learn(&mut self, decoded: &Decoded) -> Result<(), AllocError>
        ensures { OnOk result ((row : Row) → Shows decoded.now row → (x : Place) →
            known_by self.new.registers self.new.slots x
            ≡ learned row (known_by self.old.registers self.old.slots) x) }
    {
        match *decoded {
            Decoded::Fixes(rd, n) => {
                self.learn_register(rd.number(), n)?;
                Ok(())
            }
            Decoded::StoresSlot(rs, n) => match self.number_in(rs) {
                None => {
                    self.remove_slot(n.number());
                    Ok(())
                }
                Some(number) => self.learn_slot(n.number(), number),
            },
            Decoded::Moves(_, _)
            | Decoded::Sets(_, _, _, _)
            | Decoded::Addresses(_, _, _)
            | Decoded::Loads(_, _, _, _)
            | Decoded::LoadsSlot(_, _)
            | Decoded::Stores(_, _, _, _)
            | Decoded::Branches(_, _, _, _)
            | Decoded::Jumps(_)
            | Decoded::Calls(_)
            | Decoded::Returns(_) => Ok(()),
        }
    }

    fn learn_register(&mut self, r: u32, number: u64) -> Result<(), AllocError>
        ensures { OnOk result ((x : Place) → known_by self.new.registers self.new.slots x
            ≡ learned (Fixes r number) (known_by self.old.registers self.old.slots) x) }
    {
        if r != 0 {
            self.registers.insert(r, number)?;
        }
        Ok(())
    }

    fn learn_slot(&mut self, n: u32, number: u64) -> Result<(), AllocError>
        ensures { OnOk result ((x : Place) → known_by self.new.registers self.new.slots x
            ≡ with_slot n (Some number) (known_by self.old.registers self.old.slots) x) }
    {
        self.slots.insert(n, number)?;
        Ok(())
    }

    fn remove_register(&mut self, r: u32)
        ensures { (x : Place) → known_by self.new.registers self.new.slots x
            ≡ cond (is_among x (r ∷ [])) None (known_by self.old.registers self.old.slots x) }
    {
        let _ = self.registers.remove(&r);
    }

    fn remove_registers(&mut self, numbers: &[u32])
        ensures { (x : Place) → known_by self.new.registers self.new.slots x
            ≡ cond (is_among x numbers.now) None (known_by self.old.registers self.old.slots x) }
    {
        for r in numbers {
            self.remove_register(*r);
        }
    }

    fn remove_passed(&mut self, operands: &[Operand])
        ensures { (x : Place) → known_by self.new.registers self.new.slots x
            ≡ cond (is_passed x operands.now) None (known_by self.old.registers self.old.slots x) }
    {
        for operand in operands {
            if let Operand::Outgoing(n) = operand {
                self.remove_slot(n.number());
            }
        }
    }

    fn remove_slot(&mut self, n: u32)
        ensures { (x : Place) → known_by self.new.registers self.new.slots x
            ≡ with_slot n None (known_by self.old.registers self.old.slots) x }
    {
        let _ = self.slots.remove(&n);
    }
}

/// The constant for a register, if the number is known.
fn set_to(register: Reg, number: Option<u64>) -> Option<Constant>
    ensures { result ≡ set_to register number }
{
    match number {
        None => None,
        Some(number) => Some(Constant { register, number }),
    }
}
