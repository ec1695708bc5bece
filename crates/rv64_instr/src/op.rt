//! Opcodes, in classes that have the same form of operands, and their names.

ghost use Rattle.std.specs.Prelude.{◌≡◌, Some, IfSome};
ghost use Rattle.rv64_instr.specs.Instruction.{is_load};
ghost use Rattle.rv64_instr.specs.Form.{has_implicit_callee};
ghost use Rattle.rv64_instr.specs.Mnemonic.{mnemonic_of, register_name, immediate_name, branch_name, load_name};
ghost use Rattle.rv64_instr.specs.Mnemonic.{store_name, Names, NamesByPlace, NamesElsewhere};
ghost use Rattle.rv64_instr.specs.steps.Names.{NamesByValue, callee_named};

/// An operation on two registers (RISC-V Unprivileged ISA, RV32I and RV64I, "Integer Register-Register Operations").
#[derive(Clone, Copy, Debug, PartialEq, Eq)]
pub enum RegisterOp {
    Add,
    Sub,
    Sll,
    Slt,
    Sltu,
    Xor,
    Srl,
    Sra,
    Or,
    And,
    Addw,
    Subw,
    Sllw,
    Srlw,
    Sraw,
}

/// An operation on a register and a number (RISC-V Unprivileged ISA, RV32I and RV64I, "Integer Register-Immediate
/// Instructions").
#[derive(Clone, Copy, Debug, PartialEq, Eq)]
pub enum ImmediateOp {
    Addi,
    Slti,
    Sltiu,
    Xori,
    Ori,
    Andi,
    Slli,
    Srli,
    Srai,
    Addiw,
    Slliw,
    Srliw,
    Sraiw,
}

/// A conditional branch (RISC-V Unprivileged ISA, RV32I, "Conditional Branches").
#[derive(Clone, Copy, Debug, PartialEq, Eq)]
pub enum BranchOp {
    Beq,
    Bne,
    Blt,
    Bge,
    Bltu,
    Bgeu,
}

/// A load (RISC-V Unprivileged ISA, RV32I and RV64I, "Load and Store Instructions").
#[derive(Clone, Copy, Debug, PartialEq, Eq)]
pub enum LoadOp {
    Lb,
    Lh,
    Lw,
    Ld,
    Lbu,
    Lhu,
    Lwu,
}

/// A store (RISC-V Unprivileged ISA, RV32I and RV64I, "Load and Store Instructions").
#[derive(Clone, Copy, Debug, PartialEq, Eq)]
pub enum StoreOp {
    Sb,
    Sh,
    Sw,
    Sd,
}

/// An opcode of machine code: the operations of RV64I that code may have, LLVM's pseudo operations of branches, calls
/// and returns, and calls that don't return.
#[derive(Clone, Copy, Debug, PartialEq, Eq)]
pub enum Op {
    Registers(RegisterOp),
    Immediate(ImmediateOp),
    Lui,
    Branch(BranchOp),
    Load(LoadOp),
    Store(StoreOp),
    Copy,
    PseudoBr,
    PseudoCall,
    PseudoRet,
    /// A call of the code at the address that a register holds.
    PseudoCallIndirect,
    /// A call in tail position.
    PseudoTail,
    /// The same of the code at the address that a register holds.
    PseudoTailIndirect,
    /// A call of a function that doesn't return.
    NoReturnCall,
    /// The same of the code at the address that a register holds.
    NoReturnCallIndirect,
}

impl RegisterOp {
    /// The operation's name in MIR.
    pub fn mnemonic(self) -> &'static str
        ensures { result.now ≡ register_name self }
    {
        match self {
            RegisterOp::Add => "ADD",
            RegisterOp::Sub => "SUB",
            RegisterOp::Sll => "SLL",
            RegisterOp::Slt => "SLT",
            RegisterOp::Sltu => "SLTU",
            RegisterOp::Xor => "XOR",
            RegisterOp::Srl => "SRL",
            RegisterOp::Sra => "SRA",
            RegisterOp::Or => "OR",
            RegisterOp::And => "AND",
            RegisterOp::Addw => "ADDW",
            RegisterOp::Subw => "SUBW",
            RegisterOp::Sllw => "SLLW",
            RegisterOp::Srlw => "SRLW",
            RegisterOp::Sraw => "SRAW",
        }
    }
}

impl ImmediateOp {
    /// The operation's name in MIR.
    pub fn mnemonic(self) -> &'static str
        ensures { result.now ≡ immediate_name self }
    {
        match self {
            ImmediateOp::Addi => "ADDI",
            ImmediateOp::Slti => "SLTI",
            ImmediateOp::Sltiu => "SLTIU",
            ImmediateOp::Xori => "XORI",
            ImmediateOp::Ori => "ORI",
            ImmediateOp::Andi => "ANDI",
            ImmediateOp::Slli => "SLLI",
            ImmediateOp::Srli => "SRLI",
            ImmediateOp::Srai => "SRAI",
            ImmediateOp::Addiw => "ADDIW",
            ImmediateOp::Slliw => "SLLIW",
            ImmediateOp::Srliw => "SRLIW",
            ImmediateOp::Sraiw => "SRAIW",
        }
    }
}

impl BranchOp {
    /// The operation's name in MIR.
    pub fn mnemonic(self) -> &'static str
        ensures { result.now ≡ branch_name self }
    {
        match self {
            BranchOp::Beq => "BEQ",
            BranchOp::Bne => "BNE",
            BranchOp::Blt => "BLT",
            BranchOp::Bge => "BGE",
            BranchOp::Bltu => "BLTU",
            BranchOp::Bgeu => "BGEU",
        }
    }
}

impl LoadOp {
    /// The operation's name in MIR.
    pub fn mnemonic(self) -> &'static str
        ensures { result.now ≡ load_name self }
    {
        match self {
            LoadOp::Lb => "LB",
            LoadOp::Lh => "LH",
            LoadOp::Lw => "LW",
            LoadOp::Ld => "LD",
            LoadOp::Lbu => "LBU",
            LoadOp::Lhu => "LHU",
            LoadOp::Lwu => "LWU",
        }
    }
}

impl StoreOp {
    /// The operation's name in MIR.
    pub fn mnemonic(self) -> &'static str
        ensures { result.now ≡ store_name self }
    {
        match self {
            StoreOp::Sb => "SB",
            StoreOp::Sh => "SH",
            StoreOp::Sw => "SW",
            StoreOp::Sd => "SD",
        }
    }
}

impl Op {
    /// The opcode's name in MIR. A call that doesn't return has the flag `noreturn` before its opcode.
    pub fn mnemonic(self) -> &'static str
        ensures { result.now ≡ mnemonic_of self }
    {
        match self {
            Op::Registers(op) => op.mnemonic(),
            Op::Immediate(op) => op.mnemonic(),
            Op::Branch(op) => op.mnemonic(),
            Op::Load(op) => op.mnemonic(),
            Op::Store(op) => op.mnemonic(),
            Op::Lui => "LUI",
            Op::Copy => "COPY",
            Op::PseudoBr => "PseudoBR",
            Op::PseudoCall => "PseudoCALL",
            Op::PseudoRet => "PseudoRET",
            Op::PseudoCallIndirect => "PseudoCALLIndirect",
            Op::PseudoTail => "PseudoTAIL",
            Op::PseudoTailIndirect => "PseudoTAILIndirect",
            Op::NoReturnCall => "noreturn PseudoCALL",
            Op::NoReturnCallIndirect => "noreturn PseudoCALLIndirect",
        }
    }

    /// Whether its first operand is the callee's register and an implicit use.
    pub fn has_implicit_callee(self) -> bool
        ensures { result ≡ has_implicit_callee self }
    {
        matches!(self, Op::PseudoTailIndirect | Op::NoReturnCallIndirect)
    }

    /// Whether it is the opcode of a load.
    pub fn is_load(self) -> bool
        ensures { result ≡ is_load self }
    {
        matches!(self, Op::Load(_))
    }

    /// The opcode of a name in MIR, and `None` exactly if no opcode has that name.
    pub fn from_mnemonic(text: &[u8]) -> Option<Op>
        ensures found { IfSome result (λ op. text.now ≡ mnemonic_of op) }
        ensures only { (op : Op) → text.now ≡ mnemonic_of op → result ≡ Some op }
    {
        named(text)
    }
}

/// The opcode of a name in MIR.
fn named(text: &[u8]) -> Option<Op>
    ensures { Names text.now result }
{
    match named_by_place(text) {
        Some(op) => Some(op),
        None => named_elsewhere(text),
    }
}

fn named_elsewhere(text: &[u8]) -> Option<Op>
    ensures { NamesElsewhere text.now result }
{
    match named_by_value(text) {
        Some(op) => Some(op),
        None => named_by_callee(text),
    }
}

/// The opcode of an operation on registers, and of a call by name, a return or a branch that is always taken.
fn named_by_value(text: &[u8]) -> Option<Op>
    ensures { NamesByValue text.now result }
{
    match text {
        b"ADD" => Some(Op::Registers(RegisterOp::Add)),
        b"SUB" => Some(Op::Registers(RegisterOp::Sub)),
        b"SLL" => Some(Op::Registers(RegisterOp::Sll)),
        b"SLT" => Some(Op::Registers(RegisterOp::Slt)),
        b"SLTU" => Some(Op::Registers(RegisterOp::Sltu)),
        b"XOR" => Some(Op::Registers(RegisterOp::Xor)),
        b"SRL" => Some(Op::Registers(RegisterOp::Srl)),
        b"SRA" => Some(Op::Registers(RegisterOp::Sra)),
        b"OR" => Some(Op::Registers(RegisterOp::Or)),
        b"AND" => Some(Op::Registers(RegisterOp::And)),
        b"ADDW" => Some(Op::Registers(RegisterOp::Addw)),
        b"SUBW" => Some(Op::Registers(RegisterOp::Subw)),
        b"SLLW" => Some(Op::Registers(RegisterOp::Sllw)),
        b"SRLW" => Some(Op::Registers(RegisterOp::Srlw)),
        b"SRAW" => Some(Op::Registers(RegisterOp::Sraw)),
        b"ADDI" => Some(Op::Immediate(ImmediateOp::Addi)),
        b"SLTI" => Some(Op::Immediate(ImmediateOp::Slti)),
        b"SLTIU" => Some(Op::Immediate(ImmediateOp::Sltiu)),
        b"XORI" => Some(Op::Immediate(ImmediateOp::Xori)),
        b"ORI" => Some(Op::Immediate(ImmediateOp::Ori)),
        b"ANDI" => Some(Op::Immediate(ImmediateOp::Andi)),
        b"SLLI" => Some(Op::Immediate(ImmediateOp::Slli)),
        b"SRLI" => Some(Op::Immediate(ImmediateOp::Srli)),
        b"SRAI" => Some(Op::Immediate(ImmediateOp::Srai)),
        b"ADDIW" => Some(Op::Immediate(ImmediateOp::Addiw)),
        b"SLLIW" => Some(Op::Immediate(ImmediateOp::Slliw)),
        b"SRLIW" => Some(Op::Immediate(ImmediateOp::Srliw)),
        b"SRAIW" => Some(Op::Immediate(ImmediateOp::Sraiw)),
        b"LUI" => Some(Op::Lui),
        b"COPY" => Some(Op::Copy),
        b"PseudoBR" => Some(Op::PseudoBr),
        b"PseudoCALL" => Some(Op::PseudoCall),
        b"PseudoRET" => Some(Op::PseudoRet),
        _ => None,
    }
}

/// The opcode of a call by a register, in tail position or that doesn't return.
fn named_by_callee(text: &[u8]) -> Option<Op>
    ensures { result ≡ callee_named text.now }
{
    if text == b"PseudoCALLIndirect".as_slice() {
        Some(Op::PseudoCallIndirect)
    } else if text == b"PseudoTAIL".as_slice() {
        Some(Op::PseudoTail)
    } else if text == b"PseudoTAILIndirect".as_slice() {
        Some(Op::PseudoTailIndirect)
    } else if text == b"noreturn PseudoCALL".as_slice() {
        Some(Op::NoReturnCall)
    } else if text == b"noreturn PseudoCALLIndirect".as_slice() {
        Some(Op::NoReturnCallIndirect)
    } else {
        None
    }
}

/// The opcode of a branch, a load or a store.
fn named_by_place(text: &[u8]) -> Option<Op>
    ensures { NamesByPlace text.now result }
{
    match text {
        b"BEQ" => Some(Op::Branch(BranchOp::Beq)),
        b"BNE" => Some(Op::Branch(BranchOp::Bne)),
        b"BLT" => Some(Op::Branch(BranchOp::Blt)),
        b"BGE" => Some(Op::Branch(BranchOp::Bge)),
        b"BLTU" => Some(Op::Branch(BranchOp::Bltu)),
        b"BGEU" => Some(Op::Branch(BranchOp::Bgeu)),
        b"LB" => Some(Op::Load(LoadOp::Lb)),
        b"LH" => Some(Op::Load(LoadOp::Lh)),
        b"LW" => Some(Op::Load(LoadOp::Lw)),
        b"LD" => Some(Op::Load(LoadOp::Ld)),
        b"LBU" => Some(Op::Load(LoadOp::Lbu)),
        b"LHU" => Some(Op::Load(LoadOp::Lhu)),
        b"LWU" => Some(Op::Load(LoadOp::Lwu)),
        b"SB" => Some(Op::Store(StoreOp::Sb)),
        b"SH" => Some(Op::Store(StoreOp::Sh)),
        b"SW" => Some(Op::Store(StoreOp::Sw)),
        b"SD" => Some(Op::Store(StoreOp::Sd)),
        _ => None,
    }
}
