//! The inverse of a conditional branch, taken if and only if the original isn't.

ghost use Rattle.std.specs.Prelude.{◌≡◌, ℕ, not};
ghost use Rattle.rv64_instr.specs.Arithmetic.{taken};
ghost use Rattle.rv64_instr.specs.Inverse.{inverse};

use crate::op::BranchOp;

/// The opcode of the inverse condition (RISC-V Unprivileged ISA, "Conditional Branches").
pub fn inverse(op: BranchOp) -> BranchOp
    ensures value { result ≡ inverse op }
    // The inverse is taken exactly where the branch isn't, and its inverse is the branch.
    ensures negated { (a b : ℕ) → taken result a b ≡ not (taken op a b) }
    ensures involution { inverse result ≡ op }
{
    match op {
        BranchOp::Beq => BranchOp::Bne,
        BranchOp::Bne => BranchOp::Beq,
        BranchOp::Blt => BranchOp::Bge,
        BranchOp::Bge => BranchOp::Blt,
        BranchOp::Bltu => BranchOp::Bgeu,
        BranchOp::Bgeu => BranchOp::Bltu,
    }
}
