//! The text of listed functions.

ghost use Rattle.std.specs.Prelude.{◌≡◌, ◌++◌, OnOk};
ghost use Rattle.std.specs.List.{flat_map};
ghost use Rattle.listing_text.specs.Output.{listing_text, function_text, head_text, code_text, function_line};
ghost use Rattle.listing_text.specs.declared.output.ObjectPlace.TheVariants.{InArea, FromEntry};
ghost use Rattle.listing_text.specs.Output.{object_text, object_line, variable_line, inlined_text, substitution_line};
ghost use Rattle.listing_text.specs.Output.{pair_text, block_text, block_line};

use crate::hex::push_address;
use crate::line::push_lines;
use crate::name::push_name;
use crate::output::{ListedBlock, ListedFunction, ListedObject, ListedVariable, ObjectPlace};
use base_ids::function_ids::{BlockId, ObjectId};
use base_ids::metadata::NodeId;
use mir_func::debug_substitution::{DebugSubstitution, OperandPair};
use mir_printer::text::{Text, push_decimal, push_numbered, push_signed, push_str};
use std::alloc::AllocError;

/// Appends the listing of functions.
pub(crate) fn push_functions(
    text: &mut Text,
    functions: &[ListedFunction],
) -> Result<(), AllocError>
    ensures { OnOk result (text.new ≡ text.old ++ listing_text functions.now) }
{
    for function in functions {
        push_function(text, function)?;
    }
    Ok(())
}

fn push_function(text: &mut Text, function: &ListedFunction) -> Result<(), AllocError>
    ensures { OnOk result (text.new ≡ text.old ++ function_text function.now) }
{
    push_head(text, function)?;
    push_code(text, function)
}

/// Appends the lines before a function's code.
fn push_head(text: &mut Text, function: &ListedFunction) -> Result<(), AllocError>
    ensures { OnOk result (text.new ≡ text.old ++ head_text function.now) }
{
    push_function_line(text, function.name.as_slice(), function.low, function.high)?;
    push_objects(text, function.objects.as_slice())?;
    push_variables(text, function.variables.as_slice())?;
    push_substitutions(text, function.substitutions.as_slice())
}

fn push_code(text: &mut Text, function: &ListedFunction) -> Result<(), AllocError>
    ensures { OnOk result (text.new ≡ text.old ++ code_text function.now) }
{
    push_lines(text, function.prologue.as_slice())?;
    push_blocks(text, function.blocks.as_slice())
}

fn push_function_line(text: &mut Text, name: &[u8], low: u32, high: u32) -> Result<(), AllocError>
    ensures { OnOk result (text.new ≡ text.old ++ function_line name.now low high) }
{
    push_str(text, "function ")?;
    push_name(text, name)?;
    text.push(b' ')?;
    push_address(text, low)?;
    text.push(b' ')?;
    push_address(text, high)?;
    text.push(b'\n')
}

fn push_objects(text: &mut Text, objects: &[ListedObject]) -> Result<(), AllocError>
    ensures { OnOk result (text.new ≡ text.old ++ flat_map object_line objects.now) }
{
    for object in objects {
        push_object(text, object)?;
    }
    Ok(())
}

fn push_object(text: &mut Text, object: &ListedObject) -> Result<(), AllocError>
    ensures { OnOk result (text.new ≡ text.old ++ object_line object.now) }
{
    match object.place {
        ObjectPlace::InArea(offset) => push_own(text, object.id, object.size, offset),
        ObjectPlace::FromEntry(offset) => push_incoming(text, object.id, object.size, offset),
    }
}

/// Appends the line of an object that isn't fixed.
fn push_own(text: &mut Text, id: ObjectId, size: u32, offset: u32) -> Result<(), AllocError>
    ensures { OnOk result (text.new ≡ text.old ++ object_text id size (InArea offset)) }
{
    push_numbered(text, "object ", id.number())?;
    push_numbered(text, " ", size)?;
    push_numbered(text, " ", offset)?;
    text.push(b'\n')
}

/// Appends the line of a fixed object.
fn push_incoming(text: &mut Text, id: ObjectId, size: u32, offset: i32) -> Result<(), AllocError>
    ensures { OnOk result (text.new ≡ text.old ++ object_text id size (FromEntry offset)) }
{
    push_numbered(text, "incoming ", id.text_number())?;
    push_numbered(text, " ", size)?;
    push_str(text, " ")?;
    push_signed(text, i64::from(offset))?;
    text.push(b'\n')
}

fn push_variables(text: &mut Text, variables: &[ListedVariable]) -> Result<(), AllocError>
    ensures { OnOk result (text.new ≡ text.old ++ flat_map variable_line variables.now) }
{
    for variable in variables {
        push_variable(text, variable)?;
    }
    Ok(())
}

fn push_variable(text: &mut Text, variable: &ListedVariable) -> Result<(), AllocError>
    ensures { OnOk result (text.new ≡ text.old ++ variable_line variable.now) }
{
    push_numbered(text, "variable ", variable.list)?;
    push_numbered(text, " !", variable.variable.node.number())?;
    push_inlined(text, &variable.variable.inlined_at)?;
    text.push(b' ')?;
    push_name(text, variable.name.as_slice())?;
    text.push(b'\n')
}

fn push_inlined(text: &mut Text, inlined_at: &Option<NodeId>) -> Result<(), AllocError>
    ensures { OnOk result (text.new ≡ text.old ++ inlined_text inlined_at.now) }
{
    match inlined_at {
        None => push_str(text, " -"),
        Some(node) => push_numbered(text, " !", node.number()),
    }
}

fn push_substitutions(
    text: &mut Text,
    substitutions: &[DebugSubstitution],
) -> Result<(), AllocError>
    ensures { OnOk result (text.new ≡ text.old ++ flat_map substitution_line substitutions.now) }
{
    for substitution in substitutions {
        push_substitution(text, substitution)?;
    }
    Ok(())
}

fn push_substitution(text: &mut Text, entry: &DebugSubstitution) -> Result<(), AllocError>
    ensures { OnOk result (text.new ≡ text.old ++ substitution_line entry.now) }
{
    push_str(text, "substitute ")?;
    push_pair(text, &entry.src)?;
    push_pair(text, &entry.dst)?;
    push_decimal(text, entry.subreg)?;
    text.push(b'\n')
}

/// Appends a pair, with a blank after each of its numbers.
fn push_pair(text: &mut Text, pair: &OperandPair) -> Result<(), AllocError>
    ensures { OnOk result (text.new ≡ text.old ++ pair_text pair.now) }
{
    push_decimal(text, pair.number.number())?;
    text.push(b' ')?;
    push_decimal(text, pair.operand.number())?;
    text.push(b' ')
}

fn push_blocks(text: &mut Text, blocks: &[ListedBlock]) -> Result<(), AllocError>
    ensures { OnOk result (text.new ≡ text.old ++ flat_map block_text blocks.now) }
{
    for block in blocks {
        push_block(text, block)?;
    }
    Ok(())
}

fn push_block(text: &mut Text, block: &ListedBlock) -> Result<(), AllocError>
    ensures { OnOk result (text.new ≡ text.old ++ block_text block.now) }
{
    push_block_line(text, block.id)?;
    push_lines(text, block.lines.as_slice())
}

fn push_block_line(text: &mut Text, id: BlockId) -> Result<(), AllocError>
    ensures { OnOk result (text.new ≡ text.old ++ block_line id) }
{
    push_numbered(text, "block ", id.number())?;
    text.push(b'\n')
}
