//! Dataflow facts of instructions: the locations that they set, read and move.

ghost use Rattle.std.specs.Prelude.{◌≡◌, nat_eq};
ghost use Rattle.std.specs.List.{list_any};
ghost use Rattle.rv64_instr.specs.DefsAndUses.{sets, caller_saved};
ghost use Rattle.rv64_instr.specs.Row as row;
ghost use Rattle.rv64_instr.specs.Row.{Row, row_of};
ghost use Rattle.rv64_instr.specs.Decoded.{Shows, ShowsInput, ShowsBase, ShowsCallee};
ghost use Rattle.rv64_instr.specs.LocationEffects.{effect_of, set_by, place_set, input_place, base_place};
ghost use Rattle.rv64_instr.specs.LocationEffects.{moved_into, first_use, callee_place};
ghost use Rattle.rv64_instr.specs.LocationEffects.{second_use, moved_by, constant_of, is_pure, is_call, uses_of};
ghost use Rattle.rv64_instr.specs.LocationEffects.{defines_of};
ghost use Rattle.rv64_instr.specs.LocationEffects.{slot_read, slot_set, is_implicit_use, is_outgoing, is_named};
ghost use Rattle.rv64_instr.specs.LocationEffects.{is_global_register};
ghost use Rattle.rv64_instr.specs.LocationEffects.{has_site};

use crate::decoded::{Base, Callee, Decoded, Input, Way};
use crate::instr::Instr;
use crate::operand::Operand;
use crate::place::Place;
use crate::reg::Reg;
use base_ids::function_ids::SlotId;

/// The numbers of the registers that a call sets, ascending (RISC-V ELF psABI, "Integer Register Convention").
pub const CALLER_SAVED: [u32; 16] = [1, 5, 6, 7, 10, 11, 12, 13, 14, 15, 16, 17, 28, 29, 30, 31];

/// The numbers of the registers that callers and callees may share as global variables (RISC-V ELF psABI: gp and tp).
pub const GLOBAL_REGISTERS: [u32; 2] = [3, 4];

/// The locations that an instruction sets, reads and moves.
#[derive(Clone, Copy, Debug, PartialEq, Eq)]
pub struct Effect {
    /// The one location that it sets. None for a definition of x0, whose write is dropped, and for a call.
    pub def: Option<Place>,
    /// The locations that it reads by explicit operands, in text order. A constant definition reads none.
    pub uses: [Option<Place>; 2],
    /// The location whose content it moves unchanged: for slot loads, slot stores, and copies except those into x0.
    pub moved_from: Option<Place>,
    /// The number that a constant definition sets, also if it sets x0.
    pub constant: Option<i64>,
    /// It is no store to memory, branch, call or return. If it goes on, at most `def` is set; a load may stop on a
    /// frame fault instead.
    pub pure: bool,
    /// It is a call, which sets the caller-saved registers and the slots that it passes.
    pub call: bool,
}

impl Instr {
    /// The locations that the instruction sets, reads and moves. It takes no memory.
    pub fn effect(&self) -> Effect
        ensures { result ≡ effect_of (row_of self.now) }
    {
        self.decoded().effect()
    }

    /// Whether it reads the location: by an explicit operand, or by an implicit one of a call or a return; a call reads
    /// the slots that it passes too. It takes no memory.
    pub fn uses(&self, p: Place) -> bool
        ensures { result ≡ uses_of self.now p }
    {
        match p {
            Place::Register(r) => self.uses_register(r),
            Place::Slot(n) => self.uses_slot(n),
            Place::Const(_) => false,
        }
    }

    /// Whether it sets the location; a definition of x0 counts, though its write is dropped. A call sets the
    /// caller-saved registers and the slots that it passes. It takes no memory.
    pub fn defines(&self, p: Place) -> bool
        ensures { result ≡ defines_of (row_of self.now) p }
    {
        match p {
            Place::Register(r) => self.decoded().sets_register(r),
            Place::Slot(n) => self.defines_slot(n),
            Place::Const(_) => false,
        }
    }

    fn uses_register(&self, r: Reg) -> bool
        ensures { result ≡ uses_of self.now (Place.Register r) }
    {
        match self.decoded() {
            Decoded::Calls(callee) => {
                callee.place() == Some(Place::Register(r))
                    || uses_implicitly(r, self.operands.as_slice())
            }
            Decoded::Returns(_) => uses_implicitly(r, self.operands.as_slice()),
            Decoded::Moves(_, rs) => rs == r,
            Decoded::Sets(_, _, a, b) => a == r || b.place() == Some(Place::Register(r)),
            Decoded::Loads(_, _, base, _) => base.place() == Some(Place::Register(r)),
            Decoded::Stores(_, rs, base, _) => rs == r || base.place() == Some(Place::Register(r)),
            Decoded::StoresSlot(rs, _) => rs == r,
            Decoded::Branches(_, a, b, _) => a == r || b == r,
            Decoded::Fixes(_, _)
            | Decoded::Addresses(_, _, _)
            | Decoded::LoadsSlot(_, _)
            | Decoded::Jumps(_) => false,
        }
    }

    fn uses_slot(&self, n: SlotId) -> bool
        ensures { result ≡ uses_of self.now (Place.Slot n) }
    {
        match self.decoded() {
            Decoded::Calls(_) | Decoded::Returns(_) => is_passed(n, self.operands.as_slice()),
            Decoded::LoadsSlot(_, m) => m == n,
            Decoded::Fixes(_, _)
            | Decoded::Moves(_, _)
            | Decoded::Sets(_, _, _, _)
            | Decoded::Addresses(_, _, _)
            | Decoded::Loads(_, _, _, _)
            | Decoded::Stores(_, _, _, _)
            | Decoded::StoresSlot(_, _)
            | Decoded::Branches(_, _, _, _)
            | Decoded::Jumps(_) => false,
        }
    }

    fn defines_slot(&self, n: SlotId) -> bool
        ensures { result ≡ defines_of (row_of self.now) (Place.Slot n) }
    {
        match self.decoded() {
            Decoded::Calls(_) => is_passed(n, self.operands.as_slice()),
            Decoded::StoresSlot(_, m) => m == n,
            Decoded::Fixes(_, _)
            | Decoded::Moves(_, _)
            | Decoded::Sets(_, _, _, _)
            | Decoded::Addresses(_, _, _)
            | Decoded::Loads(_, _, _, _)
            | Decoded::Stores(_, _, _, _)
            | Decoded::LoadsSlot(_, _)
            | Decoded::Branches(_, _, _, _)
            | Decoded::Jumps(_)
            | Decoded::Returns(_) => false,
        }
    }
}

/// Whether an operand passes the slot to a callee.
fn is_passed(n: SlotId, operands: &[Operand]) -> bool
    ensures { result ≡ list_any (is_outgoing n) operands.now }
{
    operands.iter().any(|operand| is_outgoing(n, operand))
}

fn is_outgoing(n: SlotId, operand: &Operand) -> bool
    ensures { result ≡ is_outgoing n operand.now }
{
    matches!(operand, Operand::Outgoing(m) if n == *m)
}

fn uses_implicitly(r: Reg, operands: &[Operand]) -> bool
    ensures { result ≡ list_any (is_implicit_use r) operands.now }
{
    operands.iter().any(|operand| is_implicit_use(r, operand))
}

fn is_implicit_use(r: Reg, operand: &Operand) -> bool
    ensures { result ≡ is_implicit_use r operand.now }
{
    match operand {
        Operand::ImplicitUse(s) => *s == r,
        Operand::GlobalRegisters => is_global_register(r),
        _ => false,
    }
}

/// Whether callers and callees may share the register as a global variable.
fn is_global_register(r: Reg) -> bool
    ensures { result ≡ is_global_register r }
{
    r.number() == 3 || r.number() == 4
}

/// Whether a call sets the register.
pub fn is_caller_saved(r: Reg) -> bool
    ensures { result ≡ list_any (nat_eq r) caller_saved }
{
    matches!(r.number(), 1 | 5..=7 | 10..=17 | 28..=31)
}

/// Whether an instruction is a call.
pub fn is_call(i: &Instr) -> bool
    ensures { result ≡ is_call (row_of i.now) }
{
    matches!(i.decoded(), Decoded::Calls(_))
}

impl Decoded {
    /// The locations that it sets, reads and moves.
    pub fn effect(&self) -> Effect
        ensures { (row : Row) → Shows self.now row → result ≡ effect_of row }
    {
        Effect {
            def: self.def(),
            uses: [self.first_use(), self.second_use()],
            moved_from: self.moved_from(),
            constant: self.constant(),
            pure: self.is_pure(),
            call: self.is_call(),
        }
    }

    /// The one location that it sets. None for a definition of x0, whose write is dropped, and for a call.
    fn def(&self) -> Option<Place>
        ensures { (row : Row) → Shows self.now row → result ≡ set_by row }
    {
        match *self {
            Decoded::Fixes(rd, _) => place_set(rd),
            Decoded::Moves(rd, _) => place_set(rd),
            Decoded::Sets(rd, _, _, _) => place_set(rd),
            Decoded::Addresses(rd, _, _) => place_set(rd),
            Decoded::Loads(rd, _, _, _) => place_set(rd),
            Decoded::LoadsSlot(rd, _) => place_set(rd),
            Decoded::StoresSlot(_, n) => Some(Place::Slot(n)),
            Decoded::Stores(_, _, _, _)
            | Decoded::Branches(_, _, _, _)
            | Decoded::Jumps(_)
            | Decoded::Calls(_)
            | Decoded::Returns(_) => None,
        }
    }

    /// The first location that it reads by explicit operands, in text order. A constant definition reads none.
    fn first_use(&self) -> Option<Place>
        ensures { (row : Row) → Shows self.now row → result ≡ first_use row }
    {
        match *self {
            Decoded::Moves(_, rs) => Some(Place::Register(rs)),
            Decoded::Sets(_, _, a, _) => Some(Place::Register(a)),
            Decoded::Loads(_, _, base, _) => base.place(),
            Decoded::Stores(_, rs, _, _) => Some(Place::Register(rs)),
            Decoded::LoadsSlot(_, n) => Some(Place::Slot(n)),
            Decoded::StoresSlot(rs, _) => Some(Place::Register(rs)),
            Decoded::Branches(_, a, _, _) => Some(Place::Register(a)),
            Decoded::Calls(callee) => callee.place(),
            Decoded::Fixes(_, _)
            | Decoded::Addresses(_, _, _)
            | Decoded::Jumps(_)
            | Decoded::Returns(_) => None,
        }
    }

    /// The second such location.
    fn second_use(&self) -> Option<Place>
        ensures { (row : Row) → Shows self.now row → result ≡ second_use row }
    {
        match *self {
            Decoded::Sets(_, _, _, b) => b.place(),
            Decoded::Stores(_, _, base, _) => base.place(),
            Decoded::Branches(_, _, b, _) => Some(Place::Register(b)),
            Decoded::Fixes(_, _)
            | Decoded::Moves(_, _)
            | Decoded::Addresses(_, _, _)
            | Decoded::Loads(_, _, _, _)
            | Decoded::LoadsSlot(_, _)
            | Decoded::StoresSlot(_, _)
            | Decoded::Jumps(_)
            | Decoded::Calls(_)
            | Decoded::Returns(_) => None,
        }
    }

    /// The location whose content it moves unchanged: for slot loads, slot stores, and copies except those into x0.
    fn moved_from(&self) -> Option<Place>
        ensures { (row : Row) → Shows self.now row → result ≡ moved_by row }
    {
        match *self {
            Decoded::Moves(rd, rs) => moved_into(rd, rs),
            Decoded::LoadsSlot(_, n) => Some(Place::Slot(n)),
            Decoded::StoresSlot(rs, _) => Some(Place::Register(rs)),
            Decoded::Fixes(_, _)
            | Decoded::Sets(_, _, _, _)
            | Decoded::Addresses(_, _, _)
            | Decoded::Loads(_, _, _, _)
            | Decoded::Stores(_, _, _, _)
            | Decoded::Branches(_, _, _, _)
            | Decoded::Jumps(_)
            | Decoded::Calls(_)
            | Decoded::Returns(_) => None,
        }
    }

    /// The number that a constant definition sets, also if it sets x0.
    fn constant(&self) -> Option<i64>
        ensures { (row : Row) → Shows self.now row → result ≡ constant_of row }
    {
        match *self {
            Decoded::Fixes(_, n) => Some(n.cast_signed()),
            Decoded::Moves(_, _)
            | Decoded::Sets(_, _, _, _)
            | Decoded::Addresses(_, _, _)
            | Decoded::Loads(_, _, _, _)
            | Decoded::Stores(_, _, _, _)
            | Decoded::LoadsSlot(_, _)
            | Decoded::StoresSlot(_, _)
            | Decoded::Branches(_, _, _, _)
            | Decoded::Jumps(_)
            | Decoded::Calls(_)
            | Decoded::Returns(_) => None,
        }
    }

    /// Whether it is no store to memory, branch, call or return.
    fn is_pure(&self) -> bool
        ensures { (row : Row) → Shows self.now row → result ≡ is_pure row }
    {
        match *self {
            Decoded::Stores(_, _, _, _)
            | Decoded::Branches(_, _, _, _)
            | Decoded::Jumps(_)
            | Decoded::Calls(_)
            | Decoded::Returns(_) => false,
            Decoded::Fixes(_, _)
            | Decoded::Moves(_, _)
            | Decoded::Sets(_, _, _, _)
            | Decoded::Addresses(_, _, _)
            | Decoded::Loads(_, _, _, _)
            | Decoded::LoadsSlot(_, _)
            | Decoded::StoresSlot(_, _) => true,
        }
    }

    /// Whether it sets the register; a definition of x0 counts, though its write is dropped.
    pub fn sets_register(&self, r: Reg) -> bool
        ensures { (row : Row) → Shows self.now row → result ≡ list_any (nat_eq r) (sets row) }
    {
        match *self {
            Decoded::Fixes(rd, _) => rd == r,
            Decoded::Moves(rd, _) => rd == r,
            Decoded::Sets(rd, _, _, _) => rd == r,
            Decoded::Addresses(rd, _, _) => rd == r,
            Decoded::Loads(rd, _, _, _) => rd == r,
            Decoded::LoadsSlot(rd, _) => rd == r,
            Decoded::Calls(_) => is_caller_saved(r),
            Decoded::Stores(_, _, _, _)
            | Decoded::StoresSlot(_, _)
            | Decoded::Branches(_, _, _, _)
            | Decoded::Jumps(_)
            | Decoded::Returns(_) => false,
        }
    }

    /// The frame slot that it reads.
    pub fn slot_read(&self) -> Option<SlotId>
        ensures { (row : Row) → Shows self.now row → result ≡ slot_read row }
    {
        match *self {
            Decoded::LoadsSlot(_, n) => Some(n),
            _ => None,
        }
    }

    /// The frame slot that it sets.
    pub fn slot_set(&self) -> Option<SlotId>
        ensures { (row : Row) → Shows self.now row → result ≡ slot_set row }
    {
        match *self {
            Decoded::StoresSlot(_, n) => Some(n),
            _ => None,
        }
    }

    /// Whether it calls a function of a name, or leaves for one: it has two words, which get the function's address
    /// when the program is linked.
    pub fn has_site(&self) -> bool
        ensures { (row : Row) → Shows self.now row → result ≡ has_site row }
    {
        match *self {
            Decoded::Calls(callee)
            | Decoded::Returns(Way::Tail(callee))
            | Decoded::Returns(Way::Never(callee)) => callee.is_named(),
            Decoded::Returns(Way::Back)
            | Decoded::Fixes(_, _)
            | Decoded::Moves(_, _)
            | Decoded::Sets(_, _, _, _)
            | Decoded::Addresses(_, _, _)
            | Decoded::Loads(_, _, _, _)
            | Decoded::Stores(_, _, _, _)
            | Decoded::LoadsSlot(_, _)
            | Decoded::StoresSlot(_, _)
            | Decoded::Branches(_, _, _, _)
            | Decoded::Jumps(_) => false,
        }
    }

    /// Whether it is a call.
    fn is_call(&self) -> bool
        ensures { (row : Row) → Shows self.now row → result ≡ is_call row }
    {
        matches!(*self, Decoded::Calls(_))
    }
}

/// The location that a definition of a register sets.
fn place_set(rd: Reg) -> Option<Place>
    ensures { result ≡ place_set rd }
{
    if rd.number() == 0 {
        None
    } else {
        Some(Place::Register(rd))
    }
}

/// The location that a copy moves: none if it copies into x0.
fn moved_into(rd: Reg, rs: Reg) -> Option<Place>
    ensures { result ≡ moved_into rd rs }
{
    if rd.number() == 0 {
        None
    } else {
        Some(Place::Register(rs))
    }
}

impl Callee {
    /// The location that the callee's address is read from: none of a name's.
    pub fn place(self) -> Option<Place>
        ensures { (c : row.Callee) → ShowsCallee self c → result ≡ callee_place c }
    {
        match self {
            Callee::Named => None,
            Callee::Held(r) => Some(Place::Register(r)),
        }
    }

    fn is_named(self) -> bool
        ensures { (c : row.Callee) → ShowsCallee self c → result ≡ is_named c }
    {
        match self {
            Callee::Named => true,
            Callee::Held(_) => false,
        }
    }
}

impl Input {
    /// The location that the input is read from.
    fn place(self) -> Option<Place>
        ensures { (b : row.Input) → ShowsInput self b → result ≡ input_place b }
    {
        match self {
            Input::Content(r) => Some(Place::Register(r)),
            Input::Number(_) | Input::PartOf(_) => None,
        }
    }
}

impl Base {
    /// The location that the base is read from.
    fn place(self) -> Option<Place>
        ensures { (b : row.Base) → ShowsBase self b → result ≡ base_place b }
    {
        match self {
            Base::PointedBy(r) | Base::BesidePart(r) => Some(Place::Register(r)),
            Base::ObjectAt(_) => None,
        }
    }
}
