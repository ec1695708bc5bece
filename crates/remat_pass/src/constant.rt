//! Constant definitions.

ghost use Rattle.std.specs.Prelude.{◌≡◌, ◌++◌, ◌∷◌, false, IsTrue, IfOk, OnOk, filter, pos};
ghost use Rattle.rv64_instr.specs.Form.{has_12_bits, is_implicit, is_within};
ghost use Rattle.remat_pass.specs.Remat.{constant_code};

use rv64_instr::instr::Instr;
use rv64_instr::op::{ImmediateOp, Op};
use rv64_instr::operand::{Operand, Operands};
use rv64_instr::reg::{Reg, physical};
use std::alloc::{AllocError, Global};

/// A register and the constant to which it is set, as a number modulo 2^64.
#[derive(Clone, Copy, Debug, PartialEq, Eq)]
pub struct Constant {
    /// The register.
    pub register: Reg,
    /// The number.
    pub number: u64,
}

/// The register x0.
fn zero() -> Reg
    ensures { result ≡ 0 }
{
    match physical(0) {
        Some(r) => r,
        None => unreachable!(),
    }
}

/// The constant definition, which keeps the implicit operands among these.
pub fn constant_code(alloc: Global, c: Constant, operands: &[Operand]) -> Result<Instr, AllocError>
    ensures { IfOk result (λ i. i ≡ constant_code c.register c.number (filter is_implicit operands.now)) }
{
    let n = c.number.cast_signed();
    if (-2048..=2047).contains(&n) {
        add_number(alloc, c.register, n, operands)
    } else {
        load_upper(
            alloc,
            c.register,
            (c.number / 4096 % 1_048_576) as i64,
            operands,
        )
    }
}

/// `ADDI rd, x0, n`, with the implicit operands among these.
fn add_number(alloc: Global, rd: Reg, n: i64, operands: &[Operand]) -> Result<Instr, AllocError>
    requires { IsTrue (has_12_bits n) }
    ensures { IfOk result (λ i. i ≡ record {
      op = Op.Immediate ImmediateOp.Addi;
      operands = Operand.Def rd ∷ Operand.Use 0 ∷ Operand.Imm n ∷ filter is_implicit operands.now;
      volatile = false;
    }) }
{
    let mut list = Operands::new(alloc);
    list.push(Operand::Def(rd))?;
    list.push(Operand::Use(zero()))?;
    list.push(Operand::Imm(n))?;
    push_implicit(&mut list, operands)?;
    match Instr::new(Op::Immediate(ImmediateOp::Addi), list) {
        Some(i) => Ok(i),
        None => unreachable!(),
    }
}

/// `LUI rd, n`, with the implicit operands among these.
fn load_upper(alloc: Global, rd: Reg, n: i64, operands: &[Operand]) -> Result<Instr, AllocError>
    requires { IsTrue (is_within (pos 0) (pos 1048575) n) }
    ensures { IfOk result (λ i. i ≡ record {
      op = Op.Lui;
      operands = Operand.Def rd ∷ Operand.Imm n ∷ filter is_implicit operands.now;
      volatile = false;
    }) }
{
    let mut list = Operands::new(alloc);
    list.push(Operand::Def(rd))?;
    list.push(Operand::Imm(n))?;
    push_implicit(&mut list, operands)?;
    match Instr::new(Op::Lui, list) {
        Some(i) => Ok(i),
        None => unreachable!(),
    }
}

/// Appends the implicit operands among these.
fn push_implicit(list: &mut Operands, operands: &[Operand]) -> Result<(), AllocError>
    ensures { OnOk result (list.new ≡ list.old ++ filter is_implicit operands.now) }
{
    for operand in operands {
        if is_implicit(operand) {
            list.push(operand.copy()?)?;
        }
    }
    Ok(())
}

/// Whether the operand is implicit.
fn is_implicit(operand: &Operand) -> bool
    ensures { result ≡ is_implicit operand.now }
{
    match operand {
        Operand::ImplicitDef(r) => r.number() < 32,
        Operand::ImplicitUse(r) => r.number() < 32,
        Operand::Def(_)
        | Operand::Use(_)
        | Operand::Imm(_)
        | Operand::Slot(_)
        | Operand::Object(_)
        | Operand::Part(_, _)
        | Operand::Outgoing(_)
        | Operand::GlobalRegisters
        | Operand::Block(_)
        | Operand::Symbol(_)
        | Operand::Mask => false,
    }
}
