//! Operations by the opcode, funct3 and funct7 of their words.

ghost use Rattle.std.specs.Prelude.{◌≡◌};
ghost use Rattle.rv64_word.specs.Codes.{
  operation_of,
  branch_of,
  load_of,
  store_of,
  immediate_of,
  register_of,
  word_immediate_of,
  word_register_of,
};

use crate::word_op::WordOp;
use rv64_instr::op::{BranchOp, ImmediateOp, LoadOp, RegisterOp, StoreOp};

/// The operation of an opcode, a funct3 and a funct7, as far as the opcode has them.
#[tactic(auto, unfolding(crate::specs::Codes::operation_of))]
pub fn operation(opcode: u32, funct3: u32, funct7: u32) -> Option<WordOp>
    ensures { result ≡ operation_of opcode funct3 funct7 }
{
    match opcode {
        0x37 => Some(WordOp::Lui),
        0x6f => Some(WordOp::Jal),
        0x67 => (funct3 == 0).then_some(WordOp::Jalr),
        0x63 => Some(WordOp::Branch(branch(funct3)?)),
        0x03 => Some(WordOp::Load(load(funct3)?)),
        0x23 => Some(WordOp::Store(store(funct3)?)),
        0x13 => Some(WordOp::Immediate(immediate(funct3, funct7)?)),
        0x33 => Some(WordOp::Registers(register(funct3, funct7)?)),
        0x1b => Some(WordOp::Immediate(word_immediate(funct3, funct7)?)),
        0x3b => Some(WordOp::Registers(word_register(funct3, funct7)?)),
        _ => None,
    }
}

/// The conditional branch of a funct3.
fn branch(funct3: u32) -> Option<BranchOp>
    ensures { result ≡ branch_of funct3 }
{
    match funct3 {
        0 => Some(BranchOp::Beq),
        1 => Some(BranchOp::Bne),
        4 => Some(BranchOp::Blt),
        5 => Some(BranchOp::Bge),
        6 => Some(BranchOp::Bltu),
        7 => Some(BranchOp::Bgeu),
        _ => None,
    }
}

/// The load of a funct3.
fn load(funct3: u32) -> Option<LoadOp>
    ensures { result ≡ load_of funct3 }
{
    match funct3 {
        0 => Some(LoadOp::Lb),
        1 => Some(LoadOp::Lh),
        2 => Some(LoadOp::Lw),
        3 => Some(LoadOp::Ld),
        4 => Some(LoadOp::Lbu),
        5 => Some(LoadOp::Lhu),
        6 => Some(LoadOp::Lwu),
        _ => None,
    }
}

/// The store of a funct3.
fn store(funct3: u32) -> Option<StoreOp>
    ensures { result ≡ store_of funct3 }
{
    match funct3 {
        0 => Some(StoreOp::Sb),
        1 => Some(StoreOp::Sh),
        2 => Some(StoreOp::Sw),
        3 => Some(StoreOp::Sd),
        _ => None,
    }
}

/// The 64-bit operation with an immediate.
fn immediate(funct3: u32, funct7: u32) -> Option<ImmediateOp>
    ensures { result ≡ immediate_of funct3 funct7 }
{
    match funct3 {
        0 => Some(ImmediateOp::Addi),
        1 => (funct7 / 2 == 0).then_some(ImmediateOp::Slli),
        2 => Some(ImmediateOp::Slti),
        3 => Some(ImmediateOp::Sltiu),
        4 => Some(ImmediateOp::Xori),
        5 => match funct7 / 2 {
            0 => Some(ImmediateOp::Srli),
            16 => Some(ImmediateOp::Srai),
            _ => None,
        },
        6 => Some(ImmediateOp::Ori),
        7 => Some(ImmediateOp::Andi),
        _ => None,
    }
}

/// The 64-bit operation on registers.
fn register(funct3: u32, funct7: u32) -> Option<RegisterOp>
    ensures { result ≡ register_of funct3 funct7 }
{
    match funct3 {
        0 => match funct7 {
            0 => Some(RegisterOp::Add),
            32 => Some(RegisterOp::Sub),
            _ => None,
        },
        1 => (funct7 == 0).then_some(RegisterOp::Sll),
        2 => (funct7 == 0).then_some(RegisterOp::Slt),
        3 => (funct7 == 0).then_some(RegisterOp::Sltu),
        4 => (funct7 == 0).then_some(RegisterOp::Xor),
        5 => match funct7 {
            0 => Some(RegisterOp::Srl),
            32 => Some(RegisterOp::Sra),
            _ => None,
        },
        6 => (funct7 == 0).then_some(RegisterOp::Or),
        7 => (funct7 == 0).then_some(RegisterOp::And),
        _ => None,
    }
}

/// The 32-bit operation with an immediate.
fn word_immediate(funct3: u32, funct7: u32) -> Option<ImmediateOp>
    ensures { result ≡ word_immediate_of funct3 funct7 }
{
    match funct3 {
        0 => Some(ImmediateOp::Addiw),
        1 => (funct7 == 0).then_some(ImmediateOp::Slliw),
        5 => match funct7 {
            0 => Some(ImmediateOp::Srliw),
            32 => Some(ImmediateOp::Sraiw),
            _ => None,
        },
        _ => None,
    }
}

/// The 32-bit operation on registers.
fn word_register(funct3: u32, funct7: u32) -> Option<RegisterOp>
    ensures { result ≡ word_register_of funct3 funct7 }
{
    match funct3 {
        0 => match funct7 {
            0 => Some(RegisterOp::Addw),
            32 => Some(RegisterOp::Subw),
            _ => None,
        },
        1 => (funct7 == 0).then_some(RegisterOp::Sllw),
        5 => match funct7 {
            0 => Some(RegisterOp::Srlw),
            32 => Some(RegisterOp::Sraw),
            _ => None,
        },
        _ => None,
    }
}
