//! The constant pool of a function.

ghost use Rattle.std.specs.Prelude.{◌≡◌, ◌++◌, OnOk};
ghost use Rattle.std.specs.List.{flat_map};
ghost use Rattle.mir_func_printer.specs.FuncText.{numbered_line, value_line, constant_text, pool_text};

use mir_pool::constant::PoolConstant;
use mir_printer::text::{Text, push_decimal, push_str};
use std::alloc::AllocError;

/// Appends a line of a label and a number.
fn push_numbered_line(text: &mut Text, label: &str, n: u32) -> Result<(), AllocError>
    ensures { OnOk result (text.new ≡ text.old ++ numbered_line label.now n) }
{
    push_str(text, label)?;
    push_decimal(text, n)?;
    text.push(b'\n')
}

/// Appends the line with the type and the value of a constant.
fn push_value(text: &mut Text, bits: u32, value: u128) -> Result<(), AllocError>
    ensures { OnOk result (text.new ≡ text.old ++ value_line bits value) }
{
    push_str(text, "    value: i")?;
    push_decimal(text, bits)?;
    push_str(text, " ")?;
    push_decimal(text, value)?;
    text.push(b'\n')
}

/// Appends a constant: its number, its type and value, and its alignment.
fn push_constant(text: &mut Text, constant: PoolConstant) -> Result<(), AllocError>
    ensures { OnOk result (text.new ≡ text.old ++ constant_text constant) }
{
    push_numbered_line(text, "  - id: ", constant.id)?;
    push_value(text, constant.integer.bits(), constant.value)?;
    push_numbered_line(text, "    alignment: ", constant.alignment)
}

fn push_constants(text: &mut Text, constants: &[PoolConstant]) -> Result<(), AllocError>
    ensures { OnOk result (text.new ≡ text.old ++ flat_map constant_text constants.now) }
{
    for constant in constants {
        push_constant(text, *constant)?;
    }
    Ok(())
}

/// Appends the constants of a pool, unless there are none.
pub fn push_pool(text: &mut Text, constants: &[PoolConstant]) -> Result<(), AllocError>
    ensures { OnOk result (text.new ≡ text.old ++ pool_text constants.now) }
{
    if constants.is_empty() {
        return Ok(());
    }
    push_str(text, "constants:\n")?;
    push_constants(text, constants)
}
