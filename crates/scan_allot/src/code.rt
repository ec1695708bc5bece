//! Code in which virtual registers are replaced.

ghost use Rattle.std.specs.Prelude.{◌≡◌, IfOk, map};
ghost use Rattle.spill_code.specs.Rewrite.{renamed_operand, renamed_code};
ghost use Rattle.scan_debug.specs.scan_allocation.Coloring.{now};
ghost use Rattle.scan_stale.specs.scan_choice.Given.{given_by};

use rv64_instr::instr::Instr;
use rv64_instr::operand::{Operand, Operands};
use rv64_instr::reg::Reg;
use scan_stale::scan_choice_crate::given::now;
use std::alloc::{AllocError, Global};

/// The instruction, with the registers of its explicit operands replaced. The error is out of memory.
pub fn renamed_code(alloc: Global, given: &[Option<Reg>], i: &Instr) -> Result<Instr, AllocError>
    ensures { IfOk result (λ made. made ≡ renamed_code (now (given_by given.now)) (now (given_by given.now)) i.now) }
{
    Ok(Instr {
        op: i.op,
        operands: renamed_operands(alloc, given, i.operands.as_slice())?,
        volatile: i.volatile,
    })
}

fn renamed_operands(
    alloc: Global,
    given: &[Option<Reg>],
    operands: &[Operand],
) -> Result<Operands, AllocError>
    ensures { IfOk result (λ os.
        os ≡ map (renamed_operand (now (given_by given.now)) (now (given_by given.now))) operands.now) }
{
    let mut renamed = Operands::new(alloc);
    for operand in operands {
        renamed.push(renamed_operand(given, operand)?)?;
    }
    Ok(renamed)
}

fn renamed_operand(given: &[Option<Reg>], operand: &Operand) -> Result<Operand, AllocError>
    ensures { IfOk result (λ o. o ≡ renamed_operand (now (given_by given.now)) (now (given_by given.now)) operand.now) }
{
    match operand {
        Operand::Use(r) => Ok(Operand::Use(now(given, *r))),
        Operand::Def(r) => Ok(Operand::Def(now(given, *r))),
        Operand::ImplicitDef(_)
        | Operand::ImplicitUse(_)
        | Operand::Imm(_)
        | Operand::Slot(_)
        | Operand::Object(_)
        | Operand::Part(_, _)
        | Operand::Outgoing(_)
        | Operand::GlobalRegisters
        | Operand::Block(_)
        | Operand::Symbol(_)
        | Operand::Mask => operand.copy(),
    }
}
