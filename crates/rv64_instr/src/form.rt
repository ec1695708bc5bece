//! The form of an opcode's operands: their kinds in order, and the range of its immediate.

ghost use Rattle.std.specs.Prelude.{◌≡◌};
ghost use Rattle.std.specs.List.{list_all};
ghost use Rattle.rv64_instr.specs.Form.{has_form, fits_registers, fits_immediate, fits_upper, fits_branch};
ghost use Rattle.rv64_instr.specs.Form.{fits_load, fits_store, fits_copy, fits_jump, fits_call};
ghost use Rattle.rv64_instr.specs.Form.{
  is_immediate,
  has_12_bits,
  is_addi,
  moves_slot,
  is_implicit,
  is_argument,
  is_last_argument,
  is_call_register,
  is_result,
  is_clobbered,
  is_tail_use,
  is_tail_register,
  is_held_tail_use,
  is_held_tail_register,
  fits_held_call,
  fits_gone,
  fits_held_gone,
  fits_tail,
  fits_held_tail,
};

use crate::arithmetic::{load_width, store_width};
use crate::op::{ImmediateOp, LoadOp, Op, StoreOp};
use crate::operand::Operand;
use crate::symbol::Half;

/// Whether operands have the form of an opcode, with their immediate in range.
pub fn has_form(op: Op, operands: &[Operand]) -> bool
    ensures { result ≡ has_form op operands.now }
{
    match op {
        Op::Registers(_) => fits_registers(operands),
        Op::Immediate(op) => fits_immediate(op, operands),
        Op::Lui => fits_upper(operands),
        Op::Branch(_) => fits_branch(operands),
        Op::Load(op) => fits_load(op, operands),
        Op::Store(op) => fits_store(op, operands),
        Op::Copy => fits_copy(operands),
        Op::PseudoBr => fits_jump(operands),
        Op::PseudoCall => fits_call(operands),
        Op::PseudoRet => are_results(operands),
        Op::PseudoTail => fits_tail(operands),
        Op::PseudoTailIndirect => fits_held_tail(operands),
        Op::PseudoCallIndirect => fits_held_call(operands),
        Op::NoReturnCall => fits_gone(operands),
        Op::NoReturnCallIndirect => fits_held_gone(operands),
    }
}

fn fits_registers(operands: &[Operand]) -> bool
    ensures { result ≡ fits_registers operands.now }
{
    match operands {
        [Operand::Def(_), Operand::Use(_), Operand::Use(_), rest @ ..] => { are_implicit(rest) }
        _ => false,
    }
}

fn fits_immediate(op: ImmediateOp, operands: &[Operand]) -> bool
    ensures { result ≡ fits_immediate op operands.now }
{
    match operands {
        [Operand::Def(_), Operand::Use(_), Operand::Imm(i), rest @ ..] => {
            is_immediate(op, *i) && are_implicit(rest)
        }
        [
            Operand::Def(_),
            Operand::Object(_),
            Operand::Imm(i),
            rest @ ..,
        ] => { is_addi(op) && is_immediate(op, *i) && are_implicit(rest) }
        [
            Operand::Def(_),
            Operand::Use(_),
            Operand::Part(Half::Lower, _),
            rest @ ..,
        ] => { is_addi(op) && are_implicit(rest) }
        _ => false,
    }
}

/// Whether the number is in the operation's range.
pub fn is_immediate(op: ImmediateOp, i: i64) -> bool
    ensures { result ≡ is_immediate op i }
{
    match op {
        ImmediateOp::Addi
        | ImmediateOp::Slti
        | ImmediateOp::Sltiu
        | ImmediateOp::Xori
        | ImmediateOp::Ori
        | ImmediateOp::Andi
        | ImmediateOp::Addiw => has_12_bits(i),
        ImmediateOp::Slli | ImmediateOp::Srli | ImmediateOp::Srai => 0 <= i && i <= 63,
        ImmediateOp::Slliw | ImmediateOp::Srliw | ImmediateOp::Sraiw => 0 <= i && i <= 31,
    }
}

/// Whether it is a signed number of 12 bits.
pub fn has_12_bits(i: i64) -> bool
    ensures { result ≡ has_12_bits i }
{
    -2048 <= i && i <= 2047
}

fn is_addi(op: ImmediateOp) -> bool
    ensures { result ≡ is_addi op }
{
    matches!(op, ImmediateOp::Addi)
}

fn fits_upper(operands: &[Operand]) -> bool
    ensures { result ≡ fits_upper operands.now }
{
    match operands {
        [Operand::Def(_), Operand::Imm(i), rest @ ..] => {
            0 <= *i && *i <= 1_048_575 && are_implicit(rest)
        }
        [Operand::Def(_), Operand::Part(Half::Upper, _), rest @ ..] => { are_implicit(rest) }
        _ => false,
    }
}

fn fits_branch(operands: &[Operand]) -> bool
    ensures { result ≡ fits_branch operands.now }
{
    match operands {
        [
            Operand::Use(_),
            Operand::Use(_),
            Operand::Block(_),
            rest @ ..,
        ] => { are_implicit(rest) }
        _ => false,
    }
}

fn fits_load(op: LoadOp, operands: &[Operand]) -> bool
    ensures { result ≡ fits_load op operands.now }
{
    match operands {
        [Operand::Def(_), Operand::Use(_), Operand::Imm(i), rest @ ..] => {
            has_12_bits(*i) && are_implicit(rest)
        }
        [
            Operand::Def(_),
            Operand::Slot(_),
            Operand::Imm(i),
            rest @ ..,
        ] => { moves_slot(load_width(op), *i) && are_implicit(rest) }
        [
            Operand::Def(_),
            Operand::Object(_),
            Operand::Imm(i),
            rest @ ..,
        ] => { has_12_bits(*i) && are_implicit(rest) }
        [
            Operand::Def(_),
            Operand::Use(_),
            Operand::Part(Half::Lower, _),
            rest @ ..,
        ] => { are_implicit(rest) }
        _ => false,
    }
}

fn fits_store(op: StoreOp, operands: &[Operand]) -> bool
    ensures { result ≡ fits_store op operands.now }
{
    match operands {
        [Operand::Use(_), Operand::Use(_), Operand::Imm(i), rest @ ..] => {
            has_12_bits(*i) && are_implicit(rest)
        }
        [
            Operand::Use(_),
            Operand::Slot(_),
            Operand::Imm(i),
            rest @ ..,
        ] => { moves_slot(store_width(op), *i) && are_implicit(rest) }
        [
            Operand::Use(_),
            Operand::Object(_),
            Operand::Imm(i),
            rest @ ..,
        ] => { has_12_bits(*i) && are_implicit(rest) }
        [
            Operand::Use(_),
            Operand::Use(_),
            Operand::Part(Half::Lower, _),
            rest @ ..,
        ] => { are_implicit(rest) }
        _ => false,
    }
}

/// Whether an access of so many bytes may be of a frame slot, with this immediate.
fn moves_slot(width: usize, i: i64) -> bool
    ensures { result ≡ moves_slot width i }
{
    width == 8 && 0 <= i && i <= 0
}

fn fits_copy(operands: &[Operand]) -> bool
    ensures { result ≡ fits_copy operands.now }
{
    match operands {
        [Operand::Def(_), Operand::Use(_), rest @ ..] => { are_implicit(rest) }
        _ => false,
    }
}

fn fits_jump(operands: &[Operand]) -> bool
    ensures { result ≡ fits_jump operands.now }
{
    match operands {
        [Operand::Block(_), rest @ ..] => { are_implicit(rest) }
        _ => false,
    }
}

fn fits_call(operands: &[Operand]) -> bool
    ensures { result ≡ fits_call operands.now }
{
    match operands {
        [Operand::Symbol(_), Operand::Mask, rest @ ..] => { are_arguments(rest) }
        _ => false,
    }
}

fn fits_held_call(operands: &[Operand]) -> bool
    ensures { result ≡ fits_held_call operands.now }
{
    match operands {
        [Operand::Use(_), Operand::Mask, rest @ ..] => { are_arguments(rest) }
        _ => false,
    }
}

fn fits_gone(operands: &[Operand]) -> bool
    ensures { result ≡ fits_gone operands.now }
{
    match operands {
        [Operand::Symbol(_), Operand::Mask, rest @ ..] => { are_last_arguments(rest) }
        _ => false,
    }
}

fn fits_held_gone(operands: &[Operand]) -> bool
    ensures { result ≡ fits_held_gone operands.now }
{
    match operands {
        [Operand::ImplicitUse(r), Operand::Mask, rest @ ..] => {
            is_call_register(r.number()) && are_last_arguments(rest)
        }
        _ => false,
    }
}

fn fits_tail(operands: &[Operand]) -> bool
    ensures { result ≡ fits_tail operands.now }
{
    match operands {
        [Operand::Symbol(_), rest @ ..] => { are_tail_uses(rest) }
        _ => false,
    }
}

fn fits_held_tail(operands: &[Operand]) -> bool
    ensures { result ≡ fits_held_tail operands.now }
{
    match operands {
        [Operand::ImplicitUse(r), rest @ ..] => {
            is_held_tail_register(r.number()) && are_held_tail_uses(rest)
        }
        _ => false,
    }
}

fn are_implicit(operands: &[Operand]) -> bool
    ensures { result ≡ list_all is_implicit operands.now }
{
    operands.iter().all(|operand| is_implicit(operand))
}

fn are_arguments(operands: &[Operand]) -> bool
    ensures { result ≡ list_all is_argument operands.now }
{
    operands.iter().all(|operand| is_argument(operand))
}

fn are_last_arguments(operands: &[Operand]) -> bool
    ensures { result ≡ list_all is_last_argument operands.now }
{
    operands.iter().all(|operand| is_last_argument(operand))
}

fn are_results(operands: &[Operand]) -> bool
    ensures { result ≡ list_all is_result operands.now }
{
    operands.iter().all(|operand| is_result(operand))
}

fn are_tail_uses(operands: &[Operand]) -> bool
    ensures { result ≡ list_all is_tail_use operands.now }
{
    operands.iter().all(|operand| is_tail_use(operand))
}

fn are_held_tail_uses(operands: &[Operand]) -> bool
    ensures { result ≡ list_all is_held_tail_use operands.now }
{
    operands.iter().all(|operand| is_held_tail_use(operand))
}

fn is_implicit(operand: &Operand) -> bool
    ensures { result ≡ is_implicit operand.now }
{
    match operand {
        Operand::ImplicitDef(r) | Operand::ImplicitUse(r) => r.number() < 32,
        _ => false,
    }
}

/// Whether it is an implicit operand that a call may have.
fn is_argument(operand: &Operand) -> bool
    ensures { result ≡ is_argument operand.now }
{
    match operand {
        Operand::ImplicitDef(r) => is_clobbered(r.number()),
        Operand::ImplicitUse(r) => r.number() < 32,
        Operand::Outgoing(_) | Operand::GlobalRegisters => true,
        _ => false,
    }
}

/// Whether it is an implicit operand that a call that doesn't return may have.
fn is_last_argument(operand: &Operand) -> bool
    ensures { result ≡ is_last_argument operand.now }
{
    match operand {
        Operand::ImplicitDef(r) => is_clobbered(r.number()),
        Operand::ImplicitUse(r) => r.number() < 32,
        Operand::GlobalRegisters => true,
        _ => false,
    }
}

/// Whether a call that doesn't return may name its callee by the register.
fn is_call_register(n: u32) -> bool
    ensures { result ≡ is_call_register n }
{
    n != 2 && n < 32
}

/// Whether it is an implicit operand that a return may have.
fn is_result(operand: &Operand) -> bool
    ensures { result ≡ is_result operand.now }
{
    match operand {
        Operand::ImplicitUse(r) => 10 <= r.number() && r.number() <= 17,
        Operand::GlobalRegisters => true,
        _ => false,
    }
}

/// Whether a call may name the register as set.
fn is_clobbered(n: u32) -> bool
    ensures { result ≡ is_clobbered n }
{
    n <= 2 || (5 <= n && n <= 7) || (10 <= n && n <= 17) || (28 <= n && n <= 31)
}

/// Whether it is an implicit operand that a call by a name in tail position may have.
fn is_tail_use(operand: &Operand) -> bool
    ensures { result ≡ is_tail_use operand.now }
{
    match operand {
        Operand::ImplicitUse(r) => r.number() == 2 || is_tail_register(r.number()),
        Operand::GlobalRegisters => true,
        _ => false,
    }
}

/// Whether it is an implicit operand that a call by a register in tail position may have.
fn is_held_tail_use(operand: &Operand) -> bool
    ensures { result ≡ is_held_tail_use operand.now }
{
    match operand {
        Operand::ImplicitUse(r) => r.number() == 2 || is_held_tail_register(r.number()),
        Operand::GlobalRegisters => true,
        _ => false,
    }
}

/// Whether an argument of a call by a register in tail position, or its callee, may be in the register.
fn is_held_tail_register(n: u32) -> bool
    ensures { result ≡ is_held_tail_register n }
{
    n == 6 || is_tail_register(n)
}

/// Whether an argument of a call by a name in tail position may be in the register.
fn is_tail_register(n: u32) -> bool
    ensures { result ≡ is_tail_register n }
{
    n == 7 || ((10 <= n && n <= 17) || (28 <= n && n <= 31))
}
