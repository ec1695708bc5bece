//! The registers that operands define.

ghost use Rattle.std.specs.Prelude.{◌≡◌, Some};
ghost use Rattle.sem_mir.specs.Step.{defined as defined_by};

use mir_func::rv64_instr_crate::operand::Operand;
use mir_func::rv64_instr_crate::reg::Reg;

/// The register that an operand defines. An implicit definition defines on calls alone.
pub fn defined(call: bool, operand: &Operand) -> Option<Reg>
    ensures { result ≡ defined_by call (Some operand.now) }
{
    match operand {
        Operand::Def(r) => Some(*r),
        Operand::ImplicitDef(r) => { if call { Some(*r) } else { None } }
        Operand::Use(_)
        | Operand::ImplicitUse(_)
        | Operand::Imm(_)
        | Operand::Slot(_)
        | Operand::Object(_)
        | Operand::Part(_, _)
        | Operand::Outgoing(_)
        | Operand::GlobalRegisters
        | Operand::Block(_)
        | Operand::Symbol(_)
        | Operand::Mask => None,
    }
}
