//! The two instructions that a line of `PseudoMovAddr` is.

ghost use Rattle.std.specs.Prelude.{◌≡◌, [], ◌∷◌, ◌++◌, IfOk, OnOk, Ok, Err};
ghost use Rattle.read_refusal.specs.declared.kind.RefusalKind.{RefusalKind};
ghost use Rattle.read_item.specs.declared.judged.JudgeError.TheVariants.{Refused};
ghost use Rattle.read_item.specs.Address.{is_same_address, formed, both, halves_of, halves_in, address_operands, address_of};

use crate::code::{is_long, names_pointer, names_refused_register};
use crate::judged::JudgeError;
use crate::operand::address_operands;
use read_line::form::ItemForm;
use read_refusal::kind::RefusalKind;
use rv64_instr::instr::Instr;
use rv64_instr::linked::is_same;
use rv64_instr::op::{ImmediateOp, Op};
use rv64_instr::operand::{Operand, Operands};
use rv64_instr::reg::Reg;
use rv64_instr::symbol::{Half, LinkedAddress};
use std::alloc::{AllocError, Global};

/// Whether two addresses are of one symbol and one number of bytes.
fn is_same_address(one: &LinkedAddress, other: &LinkedAddress) -> bool
    ensures { result ≡ is_same_address one.now other.now }
{
    is_same(&one.symbol, &other.symbol) && one.addend == other.addend
}

/// `LUI` of the upper half of an address.
fn upper(alloc: Global, set: Reg, address: &LinkedAddress) -> Result<Option<Instr>, AllocError>
    ensures { IfOk result (λ instr. instr ≡ formed Op.Lui (Operand.Def set ∷ Operand.Part Half.Upper address.now ∷ [])) }
{
    let mut operands = Operands::new(alloc);
    operands.push(Operand::Def(set))?;
    operands.push(Operand::Part(Half::Upper, address.copy()?))?;
    Ok(Instr::new(Op::Lui, operands))
}

/// Appends copies of operands.
fn push_all(operands: &mut Operands, more: &[Operand]) -> Result<(), AllocError>
    ensures { OnOk result (operands.new ≡ operands.old ++ more.now) }
{
    for operand in more {
        operands.push(operand.copy()?)?;
    }
    Ok(())
}

/// `ADDI` of the lower half of an address, with further operands.
fn lower(
    alloc: Global,
    set: Reg,
    address: &LinkedAddress,
    rest: &[Operand],
) -> Result<Option<Instr>, AllocError>
    ensures { IfOk result (λ instr. instr ≡ formed (Op.Immediate ImmediateOp.Addi)
        (Operand.Def set ∷ Operand.Use set ∷ Operand.Part Half.Lower address.now ∷ rest.now)) }
{
    let mut operands = Operands::new(alloc);
    operands.push(Operand::Def(set))?;
    operands.push(Operand::Use(set))?;
    operands.push(Operand::Part(Half::Lower, address.copy()?))?;
    push_all(&mut operands, rest)?;
    Ok(Instr::new(Op::Immediate(ImmediateOp::Addi), operands))
}

fn both(one: Option<Instr>, other: Option<Instr>) -> Option<(Instr, Instr)>
    ensures { result ≡ both one other }
{
    match one {
        Some(one) => match other {
            Some(other) => Some((one, other)),
            None => None,
        },
        None => None,
    }
}

/// The instructions that set a register to an address, by its halves.
fn halves(alloc: Global, operands: &[Operand]) -> Result<Option<(Instr, Instr)>, AllocError>
    ensures { IfOk result (λ halves. halves ≡ halves_of operands.now) }
{
    match operands {
        [
            Operand::Def(set),
            Operand::Part(Half::Upper, one),
            Operand::Part(Half::Lower, other),
            rest @ ..,
        ] => {
            if is_same_address(one, other) {
                let first = upper(alloc, *set, one)?;
                let second = lower(alloc, *set, other, rest)?;
                Ok(both(first, second))
            } else {
                Ok(None)
            }
        }
        _ => Ok(None),
    }
}

/// The two instructions of the operands of a line.
fn halves_in(alloc: Global, line: &ItemForm) -> Result<Option<(Instr, Instr)>, AllocError>
    ensures { IfOk result (λ halves. halves ≡ halves_in (address_operands line.now)) }
{
    match address_operands(alloc, line)? {
        Some(operands) => halves(alloc, operands.as_slice()),
        None => Ok(None),
    }
}

/// The two instructions of a line of `PseudoMovAddr`: `LUI` and `ADDI`. It is refused with the first of these that
/// holds: `BadOperands` if its operands aren't the two halves of one address behind a register, or a number is above its
/// limit, `VirtualRegister`, `StackPointerUse`, `TooMany` for more than 64 operands.
#[tactic(auto, unfolding(crate::specs::Address::address_of))]
pub fn address_of(alloc: Global, line: &ItemForm) -> Result<(Instr, Instr), JudgeError>
    ensures ok { IfOk result (λ halves. address_of line.now ≡ Ok halves) }
    ensures refused { (kind : RefusalKind) → result ≡ Err (Refused kind) → address_of line.now ≡ Err kind }
{
    let Some(halves) = halves_in(alloc, line)? else {
        return Err(JudgeError::Refused(RefusalKind::BadOperands));
    };
    if line.exceeds {
        return Err(JudgeError::Refused(RefusalKind::BadOperands));
    }
    if names_refused_register(line) {
        return Err(JudgeError::Refused(RefusalKind::VirtualRegister));
    }
    if names_pointer(line) {
        return Err(JudgeError::Refused(RefusalKind::StackPointerUse));
    }
    if is_long(line) {
        return Err(JudgeError::Refused(RefusalKind::TooMany));
    }
    Ok(halves)
}
