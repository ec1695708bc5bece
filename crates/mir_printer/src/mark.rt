//! Marks and phis.

ghost use Rattle.std.specs.Prelude.{◌≡◌, ◌++◌, ◌*◌, OnOk, OnErr, codes};
ghost use Rattle.std.specs.Fmt.{decimal, signed_decimal};
ghost use Rattle.mir_printer.specs.Growth.{GrownFrom};
ghost use Rattle.mir_printer.specs.Spelling.{
  expression_text,
  fragment_text,
  mark_text,
  pair_expression_text,
  pair_mark_text,
  phi_place_text,
  phi_text,
  register_text,
  value_mark_text,
  variable_text,
};

use crate::operand::push_register;
use crate::text::{Text, push_decimal, push_numbered, push_signed, push_str};
use base_ids::function_ids::DebugNumber;
use mir_func::debug_substitution::OperandPair;
use mir_func::variable::{Fragment, MarkValue, VarId};
use rv64_instr::place::Place;
use rv64_instr::reg::Reg;
use std::alloc::AllocError;

/// Appends a mark: `DBG_INSTR_REF` for a pair, `DBG_VALUE` otherwise.
pub(crate) fn push_mark(
    text: &mut Text,
    variable: &VarId,
    value: &MarkValue,
) -> Result<(), AllocError>
    ensures ok { OnOk result (text.new ≡ text.old ++ mark_text variable.now value.now) }
    ensures err { OnErr result (GrownFrom text.old text.new) }
{
    match value {
        MarkValue::Nothing => push_nothing(text, variable),
        MarkValue::Constant(c) => push_constant(text, *c, variable),
        MarkValue::At(r) => push_content(text, *r, variable),
        MarkValue::Pair(pair) => push_pair(text, pair, variable),
    }
}

fn push_nothing(text: &mut Text, variable: &VarId) -> Result<(), AllocError>
    ensures ok { OnOk result (text.new ≡ text.old ++ value_mark_text (codes "$noreg") variable.now) }
    ensures err { OnErr result (GrownFrom text.old text.new) }
{
    push_str(text, "DBG_VALUE $noreg")?;
    push_variable(text, variable)
}

fn push_constant(text: &mut Text, c: i64, variable: &VarId) -> Result<(), AllocError>
    ensures ok { OnOk result (text.new ≡ text.old ++ value_mark_text (signed_decimal c) variable.now) }
    ensures err { OnErr result (GrownFrom text.old text.new) }
{
    push_str(text, "DBG_VALUE ")?;
    push_signed(text, c)?;
    push_variable(text, variable)
}

fn push_content(text: &mut Text, r: Reg, variable: &VarId) -> Result<(), AllocError>
    ensures ok { OnOk result (text.new ≡ text.old ++ value_mark_text (register_text r) variable.now) }
    ensures err { OnErr result (GrownFrom text.old text.new) }
{
    push_str(text, "DBG_VALUE ")?;
    push_register(text, r)?;
    push_variable(text, variable)
}

/// Appends the operands of a `DBG_VALUE` after its value.
fn push_variable(text: &mut Text, variable: &VarId) -> Result<(), AllocError>
    ensures ok { OnOk result (text.new ≡ text.old ++ variable_text variable.now) }
    ensures err { OnErr result (GrownFrom text.old text.new) }
{
    push_numbered(text, ", $noreg, !", variable.node.number())?;
    push_str(text, ", ")?;
    push_expression(text, &variable.fragment)
}

fn push_expression(text: &mut Text, fragment: &Option<Fragment>) -> Result<(), AllocError>
    ensures ok { OnOk result (text.new ≡ text.old ++ expression_text fragment.now) }
    ensures err { OnErr result (GrownFrom text.old text.new) }
{
    match fragment {
        None => push_str(text, "!DIExpression()"),
        Some(f) => push_closed(text, "!DIExpression(", f),
    }
}

fn push_pair_expression(text: &mut Text, fragment: &Option<Fragment>) -> Result<(), AllocError>
    ensures ok { OnOk result (text.new ≡ text.old ++ pair_expression_text fragment.now) }
    ensures err { OnErr result (GrownFrom text.old text.new) }
{
    match fragment {
        None => push_str(text, "!DIExpression(DW_OP_LLVM_arg, 0)"),
        Some(f) => push_closed(text, "!DIExpression(DW_OP_LLVM_arg, 0, ", f),
    }
}

/// Appends a label, a fragment and a bracket.
fn push_closed(text: &mut Text, label: &str, fragment: &Fragment) -> Result<(), AllocError>
    ensures ok { OnOk result (text.new ≡ text.old ++ (label.now ++ fragment_text fragment.now ++ codes ")")) }
    ensures err { OnErr result (GrownFrom text.old text.new) }
{
    push_str(text, label)?;
    push_fragment(text, fragment)?;
    push_str(text, ")")
}

fn push_fragment(text: &mut Text, fragment: &Fragment) -> Result<(), AllocError>
    ensures ok { OnOk result (text.new ≡ text.old ++ fragment_text fragment.now) }
    ensures err { OnErr result (GrownFrom text.old text.new) }
{
    push_bits(text, "DW_OP_LLVM_fragment, ", fragment.offset())?;
    push_bits(text, ", ", fragment.length())
}

/// Appends a label, and the number of bits of so many bytes.
fn push_bits(text: &mut Text, label: &str, bytes: u32) -> Result<(), AllocError>
    ensures ok { OnOk result (text.new ≡ text.old ++ (label.now ++ decimal (8 * bytes))) }
    ensures err { OnErr result (GrownFrom text.old text.new) }
{
    push_str(text, label)?;
    push_decimal(text, 8 * u64::from(bytes))
}

fn push_pair(text: &mut Text, pair: &OperandPair, variable: &VarId) -> Result<(), AllocError>
    ensures ok { OnOk result (text.new ≡ text.old ++ pair_mark_text variable.now pair.now) }
    ensures err { OnErr result (GrownFrom text.old text.new) }
{
    push_numbered(text, "DBG_INSTR_REF !", variable.node.number())?;
    push_str(text, ", ")?;
    push_pair_expression(text, &variable.fragment)?;
    push_numbered(text, ", dbg-instr-ref(", pair.number.number())?;
    push_numbered(text, ", ", pair.operand.number())?;
    push_str(text, ")")
}

/// Appends a phi.
pub(crate) fn push_phi(
    text: &mut Text,
    place: &Option<Place>,
    number: &DebugNumber,
) -> Result<(), AllocError>
    ensures ok { OnOk result (text.new ≡ text.old ++ phi_text place.now number.now) }
    ensures err { OnErr result (GrownFrom text.old text.new) }
{
    push_str(text, "DBG_PHI ")?;
    push_phi_place(text, place)?;
    push_numbered(text, ", ", number.number())
}

/// Appends a phi's location. The only constant of a phi is 0, the content of `$x0`.
fn push_phi_place(text: &mut Text, place: &Option<Place>) -> Result<(), AllocError>
    ensures ok { OnOk result (text.new ≡ text.old ++ phi_place_text place.now) }
    ensures err { OnErr result (GrownFrom text.old text.new) }
{
    match place {
        None => push_str(text, "$noreg"),
        Some(Place::Register(r)) => push_register(text, *r),
        Some(Place::Slot(n)) => push_numbered(text, "%stack.", n.number()),
        Some(Place::Const(_)) => push_str(text, "$x0"),
    }
}
