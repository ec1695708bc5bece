//! The tracker's state between two items of a block.

ghost use Rattle.std.specs.Prelude.{◌≡◌, ◌<◌, ◌≤◌, ◌+◌, ◌-◌, ◌*◌, ◌^◌, ◌&&◌, ℕ, length, slice_index, cond, nat_eq};
ghost use Rattle.std.specs.Prelude.{nat_le, nat_lt};
ghost use Rattle.std.specs.List.{list_any};
ghost use Rattle.rv64_instr.specs.DefsAndUses.{caller_saved};
ghost use Rattle.rv64_instr.specs.LocationEffects.{is_outgoing};
ghost use Rattle.value_tracker.specs.LocationTracker.{SLOTS_FROM, PLACES, slot_place, put, is_passed_at};

use base_ids::function_ids::SlotId;
use rv64_instr::operand::Operand;
use rv64_instr::reg::Reg;
use std::collections::HashMap;

/// The location index of the frame's first doubleword: registers have the indices below it.
pub const SLOTS_FROM: usize = 32;
/// The number of machine locations: registers, and doublewords of the frame.
pub const PLACES: usize = 286;

/// The tracker's state between two items of a block (LLVM: `MLocTracker`). Class 0 means no class.
#[derive(Drop)]
pub struct LocationTracker {
    /// The class of each machine location: registers by their numbers, then the doublewords of the frame by their
    /// offsets from x2. x0 has the class of the constant 0, and x2 has none.
    pub places: Vec<usize>,
    /// The class of each pair that an item of the block defined.
    pub pairs: HashMap<(u32, usize), usize>,
    /// The class of each part of a variable, in the order of their list.
    pub parts: Vec<usize>,
    /// The next new class. All classes in use are below it.
    pub next: usize,
}

/// The location index of the doubleword at an offset from x2, in bytes.
pub fn slot_place(n: SlotId) -> usize
    ensures { result ≡ slot_place n }
{
    SLOTS_FROM + n.number() as usize / 8
}

impl LocationTracker {
    /// The class at a location index, or 0.
    pub fn place(&self, i: usize) -> usize
        ensures { result ≡ slice_index self.now.places.items i }
    {
        if i < self.places.len() {
            self.places[i]
        } else {
            0
        }
    }

    /// The class of a register.
    pub fn register(&self, r: Reg) -> usize
        ensures { result ≡ slice_index self.now.places.items r }
    {
        self.place(r.number() as usize)
    }

    /// Sets a register's class. A write to x0 is dropped, and a write to x2 only clears the classes of all slots.
    pub fn put(&mut self, rd: Reg, class: usize)
        requires { PLACES ≤ length self.old.places.items }
        ensures places { (i : ℕ) → slice_index self.new.places.items i ≡ put rd class
            (slice_index self.old.places.items) i }
        ensures count { length self.new.places.items ≡ length self.old.places.items }
        ensures pairs { self.new.pairs ≡ self.old.pairs }
        ensures parts { self.new.parts ≡ self.old.parts }
        ensures next { self.new.next ≡ self.old.next }
    {
        let n = rd.number() as usize;
        if n == 2 {
            clear_slots(&mut self.places);
        } else if n != 0 && n < SLOTS_FROM {
            self.places[n] = class;
        }
    }

    /// Sets the class of the doubleword at an offset, if it is one of the frame.
    pub fn put_slot(&mut self, n: SlotId, class: usize)
        requires { length self.old.places.items ≡ PLACES }
        ensures places { (i : ℕ) → slice_index self.new.places.items i
            ≡ cond (nat_eq i (slot_place n)) (cond (nat_lt i PLACES) class 0) (slice_index self.old.places.items i) }
        ensures count { length self.new.places.items ≡ length self.old.places.items }
        ensures pairs { self.new.pairs ≡ self.old.pairs }
        ensures parts { self.new.parts ≡ self.old.parts }
        ensures next { self.new.next ≡ self.old.next }
    {
        let i = slot_place(n);
        if i < PLACES {
            self.places[i] = class;
        }
    }

    /// Clears the classes of the slots that operands pass to a callee.
    pub fn clear_passed(&mut self, operands: &[Operand])
        requires { length self.old.places.items ≡ PLACES }
        ensures places { (i : ℕ) → slice_index self.new.places.items i
            ≡ cond (nat_le SLOTS_FROM i && list_any (is_outgoing (8 * (i - SLOTS_FROM))) operands.now) 0
            (slice_index self.old.places.items i) }
        ensures count { length self.new.places.items ≡ length self.old.places.items }
        ensures pairs { self.new.pairs ≡ self.old.pairs }
        ensures parts { self.new.parts ≡ self.old.parts }
        ensures next { self.new.next ≡ self.old.next }
    {
        for operand in operands {
            self.clear_operand(operand);
        }
    }

    /// Clears the class of the slot that an operand passes to a callee, if it passes one.
    fn clear_operand(&mut self, operand: &Operand)
        requires { length self.old.places.items ≡ PLACES }
        ensures places { (i : ℕ) → slice_index self.new.places.items i
            ≡ cond (is_passed_at operand.now i) 0 (slice_index self.old.places.items i) }
        ensures count { length self.new.places.items ≡ length self.old.places.items }
        ensures pairs { self.new.pairs ≡ self.old.pairs }
        ensures parts { self.new.parts ≡ self.old.parts }
        ensures next { self.new.next ≡ self.old.next }
    {
        if let Operand::Outgoing(n) = operand {
            self.clear_slot(*n);
        }
    }

    /// Clears the class of the doubleword at an offset, if a doubleword may be there.
    fn clear_slot(&mut self, n: SlotId)
        requires { length self.old.places.items ≡ PLACES }
        ensures places { (i : ℕ) → slice_index self.new.places.items i
            ≡ cond (nat_le SLOTS_FROM i && nat_eq (8 * (i - SLOTS_FROM)) n) 0 (slice_index self.old.places.items i) }
        ensures count { length self.new.places.items ≡ length self.old.places.items }
        ensures pairs { self.new.pairs ≡ self.old.pairs }
        ensures parts { self.new.parts ≡ self.old.parts }
        ensures next { self.new.next ≡ self.old.next }
    {
        if n.number() % 8 == 0 {
            self.put_slot(n, 0);
        }
    }

    /// Sets a register's class to a new one.
    pub fn put_new(&mut self, rd: Reg)
        requires count { PLACES ≤ length self.old.places.items }
        requires few { self.old.next < 2 ^ 62 }
        ensures places { (i : ℕ) → slice_index self.new.places.items i ≡ put rd (self.old.next + rd)
            (slice_index self.old.places.items) i }
        ensures count { length self.new.places.items ≡ length self.old.places.items }
        ensures pairs { self.new.pairs ≡ self.old.pairs }
        ensures parts { self.new.parts ≡ self.old.parts }
        ensures next { self.new.next ≡ self.old.next }
    {
        let class = self.next + rd.number() as usize;
        self.put(rd, class);
    }

    /// Sets each caller-saved register's class to a new one.
    pub fn call(&mut self)
        requires count { PLACES ≤ length self.old.places.items }
        requires few { self.old.next < 2 ^ 62 }
        ensures places { (i : ℕ) → slice_index self.new.places.items i
            ≡ cond (list_any (λ q. nat_eq i q) caller_saved) (self.old.next + i) (slice_index self.old.places.items i) }
        ensures count { length self.new.places.items ≡ length self.old.places.items }
        ensures pairs { self.new.pairs ≡ self.old.pairs }
        ensures parts { self.new.parts ≡ self.old.parts }
        ensures next { self.new.next ≡ self.old.next }
    {
        renew(&mut self.places, self.next);
    }
}

/// Sets each caller-saved register's class to a new one: `next` plus the register.
fn renew(places: &mut [usize], next: usize)
    requires count { PLACES ≤ length places.old }
    requires few { next < 2 ^ 62 }
    ensures { (i : ℕ) → slice_index places.new i ≡ cond (list_any (λ q. nat_eq i q) caller_saved) (next + i)
        (slice_index places.old i) }
{
    for r in 0..SLOTS_FROM {
        if is_caller_saved(r) {
            places[r] = next + r;
        }
    }
}

/// Whether the register is caller-saved (RISC-V ELF psABI, "Integer Register Convention": ra, t0 to t6, a0 to a7).
fn is_caller_saved(r: usize) -> bool
    ensures { result ≡ list_any (λ q. nat_eq r q) caller_saved }
{
    r == 1
        || r == 5
        || r == 6
        || r == 7
        || r == 10
        || r == 11
        || r == 12
        || r == 13
        || r == 14
        || r == 15
        || r == 16
        || r == 17
        || r == 28
        || r == 29
        || r == 30
        || r == 31
}

/// Clears the classes of all slots.
fn clear_slots(places: &mut [usize])
    ensures { (i : ℕ) → slice_index places.new i ≡ cond (nat_lt i SLOTS_FROM) (slice_index places.old i) 0 }
{
    for i in SLOTS_FROM..places.len() {
        places[i] = 0;
    }
}
