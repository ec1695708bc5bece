//! The stack and the substitutions of a function.

ghost use Rattle.std.specs.Prelude.{◌≡◌, ◌++◌, OnOk};
ghost use Rattle.std.specs.List.{flat_map, list_any};
ghost use Rattle.mir_func_printer.specs.FuncText.{
  slot_line,
  local_text,
  object_numbers,
  object_line,
  own_line,
  stack_line,
  is_own,
  stack_text,
  pair_text,
  entry_line,
  some_substitutions,
  substitutions_text,
};

use base_ids::function_ids::SlotId;
use mir_func::debug_substitution::{DebugSubstitution, OperandPair};
use mir_func::object::Object;
use mir_printer::text::{Text, push_numbered, push_str};
use std::alloc::AllocError;

/// Appends the line of a frame slot.
fn push_slot(text: &mut Text, slot: SlotId) -> Result<(), AllocError>
    ensures { OnOk result (text.new ≡ text.old ++ slot_line slot) }
{
    push_numbered(text, "  - { id: ", slot.number())?;
    push_str(text, ", size: 8 }\n")
}

/// Appends the field of a local offset, if there is one.
fn push_local_offset(text: &mut Text, local: Option<u32>) -> Result<(), AllocError>
    ensures { OnOk result (text.new ≡ text.old ++ local_text local) }
{
    match local {
        Some(offset) => push_numbered(text, ", local-offset: -", offset),
        None => Ok(()),
    }
}

/// Appends the numbers of a stack object: its own, its size and its alignment.
fn push_numbers(text: &mut Text, object: &Object) -> Result<(), AllocError>
    ensures { OnOk result (text.new ≡ text.old ++ object_numbers object.now) }
{
    push_numbered(text, "  - { id: ", object.id.number())?;
    push_numbered(text, ", size: ", object.size)?;
    push_numbered(text, ", alignment: ", object.align)
}

/// Appends the line of a stack object.
fn push_object(text: &mut Text, object: &Object) -> Result<(), AllocError>
    ensures { OnOk result (text.new ≡ text.old ++ object_line object.now) }
{
    push_numbers(text, object)?;
    push_local_offset(text, object.local_offset)?;
    push_str(text, " }\n")
}

fn push_slots(text: &mut Text, slots: &[SlotId]) -> Result<(), AllocError>
    ensures { OnOk result (text.new ≡ text.old ++ flat_map slot_line slots.now) }
{
    for slot in slots {
        push_slot(text, *slot)?;
    }
    Ok(())
}

/// Appends the line of a stack object, unless it is fixed.
fn push_own(text: &mut Text, object: &Object) -> Result<(), AllocError>
    ensures { OnOk result (text.new ≡ text.old ++ own_line object.now object.now.fixed_offset) }
{
    match object.fixed_offset {
        Some(_) => Ok(()),
        None => push_object(text, object),
    }
}

fn push_objects(text: &mut Text, objects: &[Object]) -> Result<(), AllocError>
    ensures { OnOk result (text.new ≡ text.old ++ flat_map stack_line objects.now) }
{
    for object in objects {
        push_own(text, object)?;
    }
    Ok(())
}

/// Whether an object isn't fixed.
fn is_own(object: &Object) -> bool
    ensures { result ≡ is_own object.now }
{
    object.fixed_offset.is_none()
}

/// Whether one of the objects isn't fixed.
fn has_own(objects: &[Object]) -> bool
    ensures { result ≡ list_any is_own objects.now }
{
    objects.iter().any(|object| is_own(object))
}

/// Appends the stack, slots before objects that aren't fixed, unless there is neither.
pub fn push_stack(text: &mut Text, slots: &[SlotId], objects: &[Object]) -> Result<(), AllocError>
    ensures { OnOk result (text.new ≡ text.old ++ stack_text slots.now objects.now) }
{
    if slots.is_empty() && !has_own(objects) {
        return Ok(());
    }
    push_str(text, "stack:\n")?;
    push_slots(text, slots)?;
    push_objects(text, objects)
}

/// Appends a pair, with words before its number and before its operand.
fn push_pair(
    text: &mut Text,
    number: &str,
    operand: &str,
    pair: OperandPair,
) -> Result<(), AllocError>
    ensures { OnOk result (text.new ≡ text.old ++ pair_text number.now operand.now pair) }
{
    push_numbered(text, number, pair.number.number())?;
    push_numbered(text, operand, pair.operand.number())
}

/// Appends the line of a substitution.
fn push_entry(text: &mut Text, entry: &DebugSubstitution) -> Result<(), AllocError>
    ensures { OnOk result (text.new ≡ text.old ++ entry_line entry.now) }
{
    push_pair(text, "  - { srcinst: ", ", srcop: ", entry.src)?;
    push_pair(text, ", dstinst: ", ", dstop: ", entry.dst)?;
    push_numbered(text, ", subreg: ", entry.subreg)?;
    push_str(text, " }\n")
}

fn push_entries(text: &mut Text, entries: &[DebugSubstitution]) -> Result<(), AllocError>
    ensures { OnOk result (text.new ≡ text.old ++ flat_map entry_line entries.now) }
{
    for entry in entries {
        push_entry(text, entry)?;
    }
    Ok(())
}

/// Appends the substitutions, unless there are none.
pub fn push_substitutions(text: &mut Text, entries: &[DebugSubstitution]) -> Result<(), AllocError>
    ensures { OnOk result (text.new ≡ text.old ++ substitutions_text entries.now) }
{
    if entries.is_empty() {
        return Ok(());
    }
    push_some_substitutions(text, entries)
}

/// Appends the substitutions, of which there are some.
fn push_some_substitutions(text: &mut Text, entries: &[DebugSubstitution]) -> Result<(), AllocError>
    ensures { OnOk result (text.new ≡ text.old ++ some_substitutions entries.now) }
{
    push_str(text, "debugValueSubstitutions:\n")?;
    push_entries(text, entries)
}
