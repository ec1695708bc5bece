//! The operations of machine words, and their encodings.

ghost use Rattle.std.specs.Prelude.{◌≡◌};
ghost use Rattle.rv64_word.specs.Operation.{
  encoding_of,
  listed,
  register_encoding,
  immediate_encoding,
  branch_encoding,
  load_encoding,
  store_encoding,
};

use crate::format::Format;
use rv64_instr::op::{BranchOp, ImmediateOp, LoadOp, RegisterOp, StoreOp};

/// An operation that a word has: one that MIR has too, JAL or JALR.
#[derive(Clone, Copy, Debug, PartialEq, Eq)]
pub enum WordOp {
    Registers(RegisterOp),
    Immediate(ImmediateOp),
    Lui,
    Branch(BranchOp),
    Load(LoadOp),
    Store(StoreOp),
    Jal,
    Jalr,
}

/// The encoding of an operation, which distinguishes its words from others (RISC-V Unprivileged ISA,
/// "RV32/64G Instruction Set Listings").
#[derive(Clone, Copy, Debug, PartialEq, Eq)]
pub struct Encoding {
    /// The format of its words.
    pub format: Format,
    /// The lowest seven bits.
    pub opcode: u32,
    /// The bits 14 to 12, in the formats that have them.
    pub funct3: u32,
    /// The bits 31 to 25, in the formats that have them. A shift of a double word has the top six.
    pub funct7: u32,
}

impl WordOp {
    /// The encoding of the operation.
    pub fn encoding(self) -> Encoding
        ensures { result ≡ encoding_of self }
    {
        match self {
            WordOp::Registers(op) => of_registers(op),
            WordOp::Immediate(op) => of_immediate(op),
            WordOp::Lui => listed(Format::Upper, 0x37, 0, 0),
            WordOp::Branch(op) => of_branch(op),
            WordOp::Load(op) => of_load(op),
            WordOp::Store(op) => of_store(op),
            WordOp::Jal => listed(Format::Jump, 0x6f, 0, 0),
            WordOp::Jalr => listed(Format::Immediate, 0x67, 0, 0),
        }
    }
}

/// The row of an operation on two registers.
fn of_registers(op: RegisterOp) -> Encoding
    ensures { result ≡ register_encoding op }
{
    match op {
        RegisterOp::Add => listed(Format::Register, 0x33, 0, 0),
        RegisterOp::Sub => listed(Format::Register, 0x33, 0, 32),
        RegisterOp::Sll => listed(Format::Register, 0x33, 1, 0),
        RegisterOp::Slt => listed(Format::Register, 0x33, 2, 0),
        RegisterOp::Sltu => listed(Format::Register, 0x33, 3, 0),
        RegisterOp::Xor => listed(Format::Register, 0x33, 4, 0),
        RegisterOp::Srl => listed(Format::Register, 0x33, 5, 0),
        RegisterOp::Sra => listed(Format::Register, 0x33, 5, 32),
        RegisterOp::Or => listed(Format::Register, 0x33, 6, 0),
        RegisterOp::And => listed(Format::Register, 0x33, 7, 0),
        RegisterOp::Addw => listed(Format::Register, 0x3b, 0, 0),
        RegisterOp::Subw => listed(Format::Register, 0x3b, 0, 32),
        RegisterOp::Sllw => listed(Format::Register, 0x3b, 1, 0),
        RegisterOp::Srlw => listed(Format::Register, 0x3b, 5, 0),
        RegisterOp::Sraw => listed(Format::Register, 0x3b, 5, 32),
    }
}

/// The row of an operation on a register and a number.
fn of_immediate(op: ImmediateOp) -> Encoding
    ensures { result ≡ immediate_encoding op }
{
    match op {
        ImmediateOp::Addi => listed(Format::Immediate, 0x13, 0, 0),
        ImmediateOp::Slti => listed(Format::Immediate, 0x13, 2, 0),
        ImmediateOp::Sltiu => listed(Format::Immediate, 0x13, 3, 0),
        ImmediateOp::Xori => listed(Format::Immediate, 0x13, 4, 0),
        ImmediateOp::Ori => listed(Format::Immediate, 0x13, 6, 0),
        ImmediateOp::Andi => listed(Format::Immediate, 0x13, 7, 0),
        ImmediateOp::Slli => listed(Format::Shift, 0x13, 1, 0),
        ImmediateOp::Srli => listed(Format::Shift, 0x13, 5, 0),
        ImmediateOp::Srai => listed(Format::Shift, 0x13, 5, 32),
        ImmediateOp::Addiw => listed(Format::Immediate, 0x1b, 0, 0),
        ImmediateOp::Slliw => listed(Format::WordShift, 0x1b, 1, 0),
        ImmediateOp::Srliw => listed(Format::WordShift, 0x1b, 5, 0),
        ImmediateOp::Sraiw => listed(Format::WordShift, 0x1b, 5, 32),
    }
}

/// The row of a conditional branch.
fn of_branch(op: BranchOp) -> Encoding
    ensures { result ≡ branch_encoding op }
{
    match op {
        BranchOp::Beq => listed(Format::Branch, 0x63, 0, 0),
        BranchOp::Bne => listed(Format::Branch, 0x63, 1, 0),
        BranchOp::Blt => listed(Format::Branch, 0x63, 4, 0),
        BranchOp::Bge => listed(Format::Branch, 0x63, 5, 0),
        BranchOp::Bltu => listed(Format::Branch, 0x63, 6, 0),
        BranchOp::Bgeu => listed(Format::Branch, 0x63, 7, 0),
    }
}

/// The row of a load.
fn of_load(op: LoadOp) -> Encoding
    ensures { result ≡ load_encoding op }
{
    match op {
        LoadOp::Lb => listed(Format::Immediate, 0x03, 0, 0),
        LoadOp::Lh => listed(Format::Immediate, 0x03, 1, 0),
        LoadOp::Lw => listed(Format::Immediate, 0x03, 2, 0),
        LoadOp::Ld => listed(Format::Immediate, 0x03, 3, 0),
        LoadOp::Lbu => listed(Format::Immediate, 0x03, 4, 0),
        LoadOp::Lhu => listed(Format::Immediate, 0x03, 5, 0),
        LoadOp::Lwu => listed(Format::Immediate, 0x03, 6, 0),
    }
}

/// The row of a store.
fn of_store(op: StoreOp) -> Encoding
    ensures { result ≡ store_encoding op }
{
    match op {
        StoreOp::Sb => listed(Format::Store, 0x23, 0, 0),
        StoreOp::Sh => listed(Format::Store, 0x23, 1, 0),
        StoreOp::Sw => listed(Format::Store, 0x23, 2, 0),
        StoreOp::Sd => listed(Format::Store, 0x23, 3, 0),
    }
}

/// A row of the listing.
fn listed(format: Format, opcode: u32, funct3: u32, funct7: u32) -> Encoding
    ensures { result ≡ listed format opcode funct3 funct7 }
{
    Encoding {
        format,
        opcode,
        funct3,
        funct7,
    }
}
