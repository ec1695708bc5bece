//! The items of generated functions.

ghost use Rattle.std.specs.Prelude.{◌≡◌, ◌<◌, IfOk, None};
ghost use Rattle.gen_function.specs.Items.{register_of, add, copy, constant, store, load, mark, branch, jump, return};

use base_ids::function_ids::{BlockId, DebugNumber, OperandIndex, SlotId};
use mir_func::debug_substitution::OperandPair;
use mir_func::item::ItemKind;
use mir_func::variable::{MarkValue, VarId};
use rv64_instr::instr::Instr;
use rv64_instr::op::{BranchOp, ImmediateOp, LoadOp, Op, RegisterOp, StoreOp};
use rv64_instr::operand::{Operand, Operands};
use rv64_instr::reg::{Reg, physical};
use std::alloc::{AllocError, Global};

/// The register x10, the argument and the result (RISC-V ELF psABI, "Integer Register Convention": a0).
const RESULT: u32 = 10;

/// The register of a random number below 8.
pub fn register(drawn: u32) -> Reg
    requires { drawn < 8 }
    ensures { result ≡ register_of drawn }
{
    match drawn {
        0 => numbered(8),
        1 => numbered(9),
        2 => numbered(11),
        3 => numbered(12),
        4 => numbered(13),
        5 => numbered(18),
        6 => numbered(19),
        7 => numbered(20),
        _ => unreachable!(),
    }
}

/// The register xN.
pub fn numbered(n: u32) -> Reg
    requires { n < 32 }
    ensures { result ≡ n }
{
    physical(n).unwrap()
}

/// `rd = ADD rs, rt`, with a debug instruction number.
pub fn add(alloc: Global, rd: Reg, rs: Reg, rt: Reg, k: DebugNumber) -> Result<ItemKind, AllocError>
    ensures { IfOk result (λ made. made ≡ add rd rs rt k) }
{
    let mut operands = Operands::new(alloc);
    operands.push(Operand::Def(rd))?;
    operands.push(Operand::Use(rs))?;
    operands.push(Operand::Use(rt))?;
    let op = Op::Registers(RegisterOp::Add);
    Ok(ItemKind::Code(
        Instr {
            op,
            operands,
            volatile: false,
        },
        Some(k),
    ))
}

/// `rd = COPY rs`.
pub fn copy(alloc: Global, rd: Reg, rs: Reg, k: Option<DebugNumber>) -> Result<ItemKind, AllocError>
    ensures { IfOk result (λ made. made ≡ copy rd rs k) }
{
    let mut operands = Operands::new(alloc);
    operands.push(Operand::Def(rd))?;
    operands.push(Operand::Use(rs))?;
    let op = Op::Copy;
    Ok(ItemKind::Code(
        Instr {
            op,
            operands,
            volatile: false,
        },
        k,
    ))
}

/// `rd = ADDI $x0, n`, with a debug instruction number.
pub fn constant(alloc: Global, rd: Reg, n: u32, k: DebugNumber) -> Result<ItemKind, AllocError>
    requires { n < 64 }
    ensures { IfOk result (λ made. made ≡ constant rd n k) }
{
    let mut operands = Operands::new(alloc);
    operands.push(Operand::Def(rd))?;
    operands.push(Operand::Use(numbered(0)))?;
    operands.push(Operand::Imm(i64::from(n)))?;
    let op = Op::Immediate(ImmediateOp::Addi);
    Ok(ItemKind::Code(
        Instr {
            op,
            operands,
            volatile: false,
        },
        Some(k),
    ))
}

/// `SD rs, %stack.N, 0`.
pub fn store(alloc: Global, rs: Reg, slot: SlotId) -> Result<ItemKind, AllocError>
    ensures { IfOk result (λ made. made ≡ store rs slot) }
{
    let mut operands = Operands::new(alloc);
    operands.push(Operand::Use(rs))?;
    operands.push(Operand::Slot(slot))?;
    operands.push(Operand::Imm(0))?;
    let op = Op::Store(StoreOp::Sd);
    Ok(ItemKind::Code(
        Instr {
            op,
            operands,
            volatile: false,
        },
        None,
    ))
}

/// `rd = LD %stack.N, 0`, with a debug instruction number.
pub fn load(alloc: Global, rd: Reg, slot: SlotId, k: DebugNumber) -> Result<ItemKind, AllocError>
    ensures { IfOk result (λ made. made ≡ load rd slot k) }
{
    let mut operands = Operands::new(alloc);
    operands.push(Operand::Def(rd))?;
    operands.push(Operand::Slot(slot))?;
    operands.push(Operand::Imm(0))?;
    let op = Op::Load(LoadOp::Ld);
    Ok(ItemKind::Code(
        Instr {
            op,
            operands,
            volatile: false,
        },
        Some(k),
    ))
}

/// A DBG_INSTR_REF to operand 0 of a debug instruction number.
pub fn mark(variable: VarId, k: DebugNumber) -> ItemKind
    ensures { result ≡ mark variable k }
{
    ItemKind::Mark(
        variable,
        MarkValue::Pair(OperandPair {
            number: k,
            operand: OperandIndex(0),
        }),
    )
}

/// `BEQ rs, $x0, %bb.N`.
pub fn branch(alloc: Global, rs: Reg, target: BlockId) -> Result<ItemKind, AllocError>
    ensures { IfOk result (λ made. made ≡ branch rs target) }
{
    let mut operands = Operands::new(alloc);
    operands.push(Operand::Use(rs))?;
    operands.push(Operand::Use(numbered(0)))?;
    operands.push(Operand::Block(target))?;
    let op = Op::Branch(BranchOp::Beq);
    Ok(ItemKind::Code(
        Instr {
            op,
            operands,
            volatile: false,
        },
        None,
    ))
}

/// `PseudoBR %bb.N`.
pub fn jump(alloc: Global, target: BlockId) -> Result<ItemKind, AllocError>
    ensures { IfOk result (λ made. made ≡ jump target) }
{
    let mut operands = Operands::new(alloc);
    operands.push(Operand::Block(target))?;
    let op = Op::PseudoBr;
    Ok(ItemKind::Code(
        Instr {
            op,
            operands,
            volatile: false,
        },
        None,
    ))
}

/// `PseudoRET implicit $x10`.
pub fn return_result(alloc: Global) -> Result<ItemKind, AllocError>
    ensures { IfOk result (λ made. made ≡ return) }
{
    let mut operands = Operands::new(alloc);
    operands.push(Operand::ImplicitUse(numbered(RESULT)))?;
    let op = Op::PseudoRet;
    Ok(ItemKind::Code(
        Instr {
            op,
            operands,
            volatile: false,
        },
        None,
    ))
}
