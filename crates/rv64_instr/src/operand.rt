//! Operands of instructions.

ghost use Rattle.std.specs.Prelude.{◌≡◌, [], ◌∷◌, ◌++◌, OnOk, OnErr, IfOk};

use crate::name::Name;
use crate::reg::Reg;
use crate::symbol::{Half, LinkedAddress};
use base_ids::function_ids::{BlockId, ObjectId, SlotId};
use smallvec::SmallVec;
use std::alloc::{AllocError, Global};
use std::marker::Model;

/// An operand of an instruction (LLVM: `MachineOperand`).
#[derive(Debug, Default, Drop)]
pub enum Operand {
    /// A register that the instruction sets.
    Def(Reg),
    /// A register that it reads.
    Use(Reg),
    /// A register that it sets implicitly (LLVM: `implicit-def`). That of a call alone counts.
    ImplicitDef(Reg),
    /// A register that it reads implicitly (LLVM: `implicit`). Only those of calls and returns
    /// count.
    ImplicitUse(Reg),
    /// An immediate.
    Imm(i64),
    /// A frame slot.
    Slot(SlotId),
    /// A stack object.
    Object(ObjectId),
    /// A half of an address that is known when the program is linked.
    Part(Half, LinkedAddress),
    /// A frame slot that a call passes to its callee, as an argument on the stack.
    Outgoing(SlotId),
    /// The registers that callers and callees may share as global variables: x3 and x4. A call, a call in tail position or
    /// a return that has it reads them; they are no arguments and no results.
    GlobalRegisters,
    /// A block.
    Block(BlockId),
    /// The function that a call names.
    Symbol(Name),
    /// A register mask, of which only its presence is kept.
    #[default]
    Mask,
}

impl Operand {
    /// An equal operand.
    pub fn copy(&self) -> Result<Operand, AllocError>
        ensures { IfOk result (λ copied. copied ≡ self.now) }
    {
        match self {
            Operand::Def(r) => Ok(Operand::Def(*r)),
            Operand::Use(r) => Ok(Operand::Use(*r)),
            Operand::ImplicitDef(r) => Ok(Operand::ImplicitDef(*r)),
            Operand::ImplicitUse(r) => Ok(Operand::ImplicitUse(*r)),
            Operand::Imm(i) => Ok(Operand::Imm(*i)),
            Operand::Slot(n) => Ok(Operand::Slot(*n)),
            Operand::Object(n) => Ok(Operand::Object(*n)),
            Operand::Part(half, address) => Ok(Operand::Part(*half, address.copy()?)),
            Operand::Outgoing(n) => Ok(Operand::Outgoing(*n)),
            Operand::GlobalRegisters => Ok(Operand::GlobalRegisters),
            Operand::Block(n) => Ok(Operand::Block(*n)),
            Operand::Symbol(name) => Ok(Operand::Symbol(name.copy()?)),
            Operand::Mask => Ok(Operand::Mask),
        }
    }
}

/// The operands of an instruction in text order, definitions first, implicit operands last.
#[derive(Debug, Drop)]
pub struct Operands {
    /// The operands. The first four take no memory of their own.
    pub items: SmallVec<Operand, 4>,
}

impl Model for Operands {
    ghost use Rattle.std.specs.Prelude.{List};
    ghost use Rattle.rv64_instr.specs.declared.operand.Operand.{Operand};

    ghost Value = { List Operand };

    ghost view = { λ o. o.items.items };
}

impl Operands {
    /// No operands. It takes no memory.
    pub fn new(alloc: Global) -> Operands
        ensures { result ≡ [] }
    {
        Operands {
            items: SmallVec::new(alloc),
        }
    }

    /// Appends an operand. A refused push leaves the list as it was, and drops the operand.
    pub fn push(&mut self, item: Operand) -> Result<(), AllocError>
        ensures ok { OnOk result (self.new ≡ self.old ++ item ∷ []) }
        ensures err { OnErr result (self.new ≡ self.old) }
    {
        self.items.push(item)?;
        Ok(())
    }

    /// The operands in order. It takes no memory.
    pub fn as_slice(&self) -> &[Operand]
        ensures { result.now ≡ self.now }
    {
        self.items.as_slice()
    }

    /// An equal list of operands.
    pub fn copy(&self) -> Result<Operands, AllocError>
        ensures { IfOk result (λ copied. copied ≡ self.now) }
    {
        let mut items = SmallVec::new(*self.items.allocator());
        for operand in self.items.as_slice() {
            items.push(operand.copy()?)?;
        }
        Ok(Operands { items })
    }
}
