//! Operands.

ghost use Rattle.std.specs.Prelude.{◌≡◌, ◌++◌, OnOk, OnErr};
ghost use Rattle.mir_printer.specs.Growth.{GrownFrom};
ghost use Rattle.mir_printer.specs.Spelling.{addend_text, half_text, linked_symbol_text};
ghost use Rattle.mir_printer.specs.Spelling.{object_text, operand_text, part_text, register_text};

use crate::symbol::push_symbol;
use crate::text::{Text, push_numbered, push_signed, push_str};
use base_ids::function_ids::{ObjectId, SlotId};
use base_ids::limits::FIXED;
use rv64_instr::operand::Operand;
use rv64_instr::reg::Reg;
use rv64_instr::symbol::{Half, LinkedAddress, Symbol};
use std::alloc::AllocError;

/// Appends an operand.
pub(crate) fn push_operand(text: &mut Text, operand: &Operand) -> Result<(), AllocError>
    ensures ok { OnOk result (text.new ≡ text.old ++ operand_text operand.now) }
    ensures err { OnErr result (GrownFrom text.old text.new) }
{
    match operand {
        Operand::Def(r) | Operand::Use(r) => push_register(text, *r),
        Operand::ImplicitDef(r) => push_implicit(text, "implicit-def ", *r),
        Operand::ImplicitUse(r) => push_implicit(text, "implicit ", *r),
        Operand::Imm(i) => push_signed(text, *i),
        Operand::Slot(n) => push_numbered(text, "%stack.", n.number()),
        Operand::Object(n) => push_object(text, *n),
        Operand::Part(half, address) => push_part(text, *half, address),
        Operand::Outgoing(n) => push_outgoing(text, *n),
        Operand::GlobalRegisters => push_str(text, "globals"),
        Operand::Block(n) => push_numbered(text, "%bb.", n.number()),
        Operand::Symbol(name) => push_symbol(text, name.as_slice()),
        Operand::Mask => push_str(text, "mask"),
    }
}

/// Appends a stack object, which may be a fixed one.
fn push_object(text: &mut Text, object: ObjectId) -> Result<(), AllocError>
    ensures ok { OnOk result (text.new ≡ text.old ++ object_text object) }
    ensures err { OnErr result (GrownFrom text.old text.new) }
{
    let n = object.number();
    if FIXED <= n {
        push_numbered(text, "%fixed-stack.", n - FIXED)
    } else {
        push_numbered(text, "%stack.", n)
    }
}

/// Appends a slot that a call passes.
fn push_outgoing(text: &mut Text, n: SlotId) -> Result<(), AllocError>
    ensures ok { OnOk result (text.new ≡ text.old ++ operand_text (Operand.Outgoing n)) }
    ensures err { OnErr result (GrownFrom text.old text.new) }
{
    push_numbered(text, "outgoing(", n.number())?;
    push_str(text, ")")
}

/// Appends a half of an address.
fn push_part(text: &mut Text, half: Half, address: &LinkedAddress) -> Result<(), AllocError>
    ensures ok { OnOk result (text.new ≡ text.old ++ part_text half address.now) }
    ensures err { OnErr result (GrownFrom text.old text.new) }
{
    push_half(text, half)?;
    push_address(text, address)
}

/// Appends which half of an address it is.
fn push_half(text: &mut Text, half: Half) -> Result<(), AllocError>
    ensures ok { OnOk result (text.new ≡ text.old ++ half_text half) }
    ensures err { OnErr result (text.new ≡ text.old) }
{
    match half {
        Half::Upper => push_str(text, "target-flags(riscv-hi) "),
        Half::Lower => push_str(text, "target-flags(riscv-lo) "),
    }
}

/// Appends an address that is known when the program is linked.
fn push_address(text: &mut Text, address: &LinkedAddress) -> Result<(), AllocError>
    ensures ok { OnOk result (text.new ≡ text.old ++ (linked_symbol_text address.now.symbol ++ addend_text address.now.addend)) }
    ensures err { OnErr result (GrownFrom text.old text.new) }
{
    push_linked_symbol(text, &address.symbol)?;
    push_addend(text, address.addend)
}

/// Appends a global or a constant of the function's pool.
fn push_linked_symbol(text: &mut Text, symbol: &Symbol) -> Result<(), AllocError>
    ensures ok { OnOk result (text.new ≡ text.old ++ linked_symbol_text symbol.now) }
    ensures err { OnErr result (GrownFrom text.old text.new) }
{
    match symbol {
        Symbol::Global(name) => push_symbol(text, name.as_slice()),
        Symbol::Constant(n) => push_numbered(text, "%const.", *n),
    }
}

/// Appends the number that is added to a symbol's address.
fn push_addend(text: &mut Text, addend: i32) -> Result<(), AllocError>
    ensures ok { OnOk result (text.new ≡ text.old ++ addend_text addend) }
    ensures err { OnErr result (GrownFrom text.old text.new) }
{
    if addend < 0 {
        push_numbered(text, " - ", addend.unsigned_abs())
    } else if addend > 0 {
        push_numbered(text, " + ", addend.unsigned_abs())
    } else {
        Ok(())
    }
}

/// Appends the word for an implicit operand and the register.
fn push_implicit(text: &mut Text, word: &str, r: Reg) -> Result<(), AllocError>
    ensures ok { OnOk result (text.new ≡ text.old ++ (word.now ++ register_text r)) }
    ensures err { OnErr result (GrownFrom text.old text.new) }
{
    push_str(text, word)?;
    push_register(text, r)
}

/// Appends a register: `$xN`, and a virtual one `%K` from K = 0 on.
pub(crate) fn push_register(text: &mut Text, r: Reg) -> Result<(), AllocError>
    ensures ok { OnOk result (text.new ≡ text.old ++ register_text r) }
    ensures err { OnErr result (GrownFrom text.old text.new) }
{
    let n = r.number();
    if n < 32 {
        push_numbered(text, "$x", n)
    } else {
        push_numbered(text, "%", n - 32)
    }
}
