//! The fixed stack objects of a function.

ghost use Rattle.std.specs.Prelude.{◌≡◌, ◌++◌, Some, OnOk, codes};
ghost use Rattle.std.specs.List.{flat_map, list_any};
ghost use Rattle.std.specs.Fmt.{signed_decimal};
ghost use Rattle.mir_func_printer.specs.FuncText.{fixed_line, fixed_stack_line, is_fixed, fixed_text};

use mir_func::object::Object;
use mir_printer::text::{Text, push_numbered, push_signed, push_str};
use std::alloc::AllocError;

/// Appends the field of an offset from the stack pointer at entry.
fn push_offset(text: &mut Text, offset: i32) -> Result<(), AllocError>
    ensures { OnOk result (text.new ≡ text.old ++ (codes ", offset: " ++ signed_decimal offset)) }
{
    push_str(text, ", offset: ")?;
    push_signed(text, i64::from(offset))
}

/// Appends the line of a fixed object at this offset.
fn push_entry(text: &mut Text, object: &Object, offset: i32) -> Result<(), AllocError>
    ensures { OnOk result (text.new ≡ text.old ++ fixed_line object.now (Some offset)) }
{
    push_numbered(text, "  - { id: ", object.id.text_number())?;
    push_offset(text, offset)?;
    push_numbered(text, ", size: ", object.size)?;
    push_str(text, " }\n")
}

/// Appends the line of an object, if it is fixed.
fn push_line(text: &mut Text, object: &Object) -> Result<(), AllocError>
    ensures { OnOk result (text.new ≡ text.old ++ fixed_line object.now object.now.fixed_offset) }
{
    match object.fixed_offset {
        Some(offset) => push_entry(text, object, offset),
        None => Ok(()),
    }
}

fn push_lines(text: &mut Text, objects: &[Object]) -> Result<(), AllocError>
    ensures { OnOk result (text.new ≡ text.old ++ flat_map fixed_stack_line objects.now) }
{
    for object in objects {
        push_line(text, object)?;
    }
    Ok(())
}

fn is_fixed(object: &Object) -> bool
    ensures { result ≡ is_fixed object.now }
{
    object.fixed_offset.is_some()
}

/// Whether one of the objects is fixed.
fn has_fixed(objects: &[Object]) -> bool
    ensures { result ≡ list_any is_fixed objects.now }
{
    objects.iter().any(|object| is_fixed(object))
}

/// Appends the fixed objects, unless there are none.
pub fn push_fixed(text: &mut Text, objects: &[Object]) -> Result<(), AllocError>
    ensures { OnOk result (text.new ≡ text.old ++ fixed_text objects.now) }
{
    if !has_fixed(objects) {
        return Ok(());
    }
    push_str(text, "fixedStack:\n")?;
    push_lines(text, objects)
}
