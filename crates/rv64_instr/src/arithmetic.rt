//! The arithmetic of RV64I: results of operations, conditions of branches, and extension of loaded bytes.

ghost use Rattle.std.specs.Prelude.{◌≡◌, ◌<◌, ◌*◌, ◌^◌, ◌%◌};
ghost use Rattle.rv64_instr.specs.Arithmetic.{computed, taken, extended, load_width, store_width, extend32};

use crate::op::{BranchOp, LoadOp, RegisterOp, StoreOp};

/// The result of an operation on the contents of two registers (RISC-V Unprivileged ISA, RV32I and RV64I, "Integer
/// Register-Register Operations").
#[tactic(auto, unfolding(crate::specs::Arithmetic::computed))]
pub fn compute(op: RegisterOp, a: u64, b: u64) -> u64
    ensures { result ≡ computed op a b }
{
    match op {
        RegisterOp::Add => a.wrapping_add(b),
        RegisterOp::Sub => a.wrapping_sub(b),
        RegisterOp::Sll => a << (b % 64),
        RegisterOp::Slt => u64::from(a.cast_signed() < b.cast_signed()),
        RegisterOp::Sltu => u64::from(a < b),
        RegisterOp::Xor => a ^ b,
        RegisterOp::Srl => a >> (b % 64),
        RegisterOp::Sra => (a.cast_signed() >> (b % 64)).cast_unsigned(),
        RegisterOp::Or => a | b,
        RegisterOp::And => a & b,
        RegisterOp::Addw => extend32(a.wrapping_add(b)),
        RegisterOp::Subw => extend32(a.wrapping_sub(b)),
        RegisterOp::Sllw => extend32(a << (b % 32)),
        RegisterOp::Srlw => extend32((a % (1 << 32)) >> (b % 32)),
        RegisterOp::Sraw => {
            let low = (a % (1 << 32)) as u32;
            i64::from(low.cast_signed() >> (b % 32)).cast_unsigned()
        }
    }
}

/// Whether a conditional branch is taken, at the contents of its two registers (RISC-V Unprivileged ISA, RV32I,
/// "Conditional Branches").
#[tactic(auto, unfolding(crate::specs::Arithmetic::taken))]
pub fn is_taken(op: BranchOp, a: u64, b: u64) -> bool
    ensures { result ≡ taken op a b }
{
    match op {
        BranchOp::Beq => a == b,
        BranchOp::Bne => a != b,
        BranchOp::Blt => a.cast_signed() < b.cast_signed(),
        BranchOp::Bge => !(a.cast_signed() < b.cast_signed()),
        BranchOp::Bltu => a < b,
        BranchOp::Bgeu => !(a < b),
    }
}

/// How many bytes a load moves: 1, 2, 4 or 8.
pub fn load_width(op: LoadOp) -> usize
    ensures { result ≡ load_width op }
{
    match op {
        LoadOp::Lb | LoadOp::Lbu => 1,
        LoadOp::Lh | LoadOp::Lhu => 2,
        LoadOp::Lw | LoadOp::Lwu => 4,
        LoadOp::Ld => 8,
    }
}

/// How many bytes a store moves: 1, 2, 4 or 8.
pub fn store_width(op: StoreOp) -> usize
    ensures { result ≡ store_width op }
{
    match op {
        StoreOp::Sb => 1,
        StoreOp::Sh => 2,
        StoreOp::Sw => 4,
        StoreOp::Sd => 8,
    }
}

/// The result of a load from the number of its bytes, the first byte lowest: sign-extended, except for the unsigned
/// loads.
#[tactic(auto, unfolding(crate::specs::Arithmetic::extended))]
pub fn extend(op: LoadOp, n: u64) -> u64
    requires { n < 2 ^ (8 * load_width op) }
    ensures { result ≡ extended op n }
{
    match op {
        LoadOp::Lb => i64::from((n as u8).cast_signed()).cast_unsigned(),
        LoadOp::Lh => i64::from((n as u16).cast_signed()).cast_unsigned(),
        LoadOp::Lw => i64::from((n as u32).cast_signed()).cast_unsigned(),
        LoadOp::Ld | LoadOp::Lbu | LoadOp::Lhu | LoadOp::Lwu => n,
    }
}

/// The low 32 bits, sign-extended to 64.
pub fn extend32(n: u64) -> u64
    ensures { result ≡ extend32 n }
{
    let low = (n % (1 << 32)) as u32;
    i64::from(low.cast_signed()).cast_unsigned()
}
