//! Instructions, in the form of their opcode.

ghost use Rattle.std.specs.Prelude.{◌≡◌, false, IfOk, IfSome, IsNone, ◌↔◌};

use crate::form::has_form;
use crate::op::Op;
use crate::operand::Operands;
use std::alloc::AllocError;
use std::marker::Model;

/// An instruction whose operands have the form of its opcode, with their immediate in range (LLVM: `MachineInstr`).
#[derive(Debug, Drop)]
pub struct Instr {
    /// The opcode.
    pub op: Op,
    /// The operands in text order, counted from 0, definitions first.
    pub operands: Operands,
    /// Whether its access of memory, if it has one, is volatile (LLVM Language Reference, "Volatile Memory Accesses").
    pub volatile: bool,
}

impl Model for Instr {
    ghost use Rattle.rv64_instr.specs.Instruction.{Instruction};

    ghost Value = { Instruction };

    ghost use Rattle.std.specs.Prelude.{IsTrue};
    ghost use Rattle.rv64_instr.specs.Form.{has_form};

    ghost view = { λ i. record { op = i.op; operands = i.operands; volatile = i.volatile } };

    ghost invariant = { λ i. IsTrue (has_form i.op i.operands) };
}

impl Instr {
    ghost use Rattle.rv64_instr.specs.Form.{has_form};
    ghost use Rattle.rv64_instr.specs.Instruction.{is_volatile_load};

    /// The instruction of an opcode and its operands, which isn't volatile, and `None` exactly if they don't have its
    /// form.
    pub fn new(op: Op, operands: Operands) -> Option<Instr>
        ensures none { IsNone result ↔ (has_form op operands ≡ false) }
        ensures value { IfSome result (λ i. i ≡ record { op = op; operands = operands; volatile = false }) }
    {
        if has_form(op, operands.as_slice()) {
            Some(Instr {
                op,
                operands,
                volatile: false,
            })
        } else {
            None
        }
    }

    /// Whether it is a volatile load. It may have effects that memory's content doesn't show, so passes leave it where
    /// it is. It takes no memory.
    pub fn is_volatile_load(&self) -> bool
        ensures { result ≡ is_volatile_load self.now }
    {
        self.op.is_load() && self.volatile
    }

    /// The same instruction, volatile or not.
    pub fn with_volatile(self, volatile: bool) -> Instr
        ensures { result ≡ record self { volatile = volatile } }
    {
        Instr {
            op: self.op,
            operands: self.operands,
            volatile,
        }
    }

    /// An equal instruction.
    pub fn copy(&self) -> Result<Instr, AllocError>
        ensures { IfOk result (λ copied. copied ≡ self.now) }
    {
        Ok(Instr {
            op: self.op,
            operands: self.operands.copy()?,
            volatile: self.volatile,
        })
    }
}
