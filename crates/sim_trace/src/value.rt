//! The text of variables' values.

ghost use Rattle.std.specs.Prelude.{◌≡◌, ◌++◌, OnOk, All};
ghost use Rattle.std.specs.List.{flat_map};
ghost use Rattle.dwarf_loclists.specs.Ranges.{IsLocated};
ghost use Rattle.sem_machine.specs.Machine.{Machine as State};
ghost use Rattle.sim_machine.specs.Kept.{StandsFor};
ghost use Rattle.sim_trace.specs.Lines.{nowhere_text, whole_text, piece_text, located_text};
ghost use Rattle.sim_trace.specs.Lines.{variable_text, variables_text};
ghost use Rattle.sim_trace.specs.Lines.{piece_value_text};
ghost use Rattle.sim_trace.specs.steps.Readable.{IsReadablePiece, IsReadable};

use crate::location::location_at;
use crate::variable::Variable;
use dwarf_loclists::range::{Location, Part};
use listing_text::name::push_name;
use mir_printer::text::{Text, push_decimal, push_numbered, push_str};
use sim_machine::hart::Hart;
use sim_machine::value::low_bytes;
use std::alloc::AllocError;

/// Appends the values of variables.
pub fn push_variables(
    text: &mut Text,
    hart: &Hart,
    variables: &[Variable],
) -> Result<(), AllocError>
    requires { All IsReadable variables.now }
    ensures { OnOk result ((s : State) → StandsFor hart.now s → text.new ≡ text.old ++ variables_text variables.now s) }
{
    for variable in variables {
        push_variable(text, hart, variable)?;
    }
    Ok(())
}

/// Appends the value of a variable.
fn push_variable(text: &mut Text, hart: &Hart, variable: &Variable) -> Result<(), AllocError>
    requires { IsReadable variable.now }
    ensures { OnOk result ((s : State) → StandsFor hart.now s → text.new ≡ text.old ++ variable_text s variable.now) }
{
    let name = variable.name.as_slice();
    match location_at(variable.ranges.as_slice(), hart.counter) {
        Some(location) => push_location(text, hart, name, location),
        None => push_nowhere(text, name),
    }
}

/// Appends a variable that has no location.
fn push_nowhere(text: &mut Text, name: &[u8]) -> Result<(), AllocError>
    ensures { OnOk result (text.new ≡ text.old ++ nowhere_text name.now) }
{
    push_str(text, " ")?;
    push_name(text, name)?;
    push_str(text, "=-")
}

/// Appends the value of a variable by its location.
fn push_location(
    text: &mut Text,
    hart: &Hart,
    name: &[u8],
    location: &Location,
) -> Result<(), AllocError>
    requires { IsLocated location.now }
    ensures { OnOk result ((s : State) → StandsFor hart.now s
        → text.new ≡ text.old ++ located_text name.now s location.now) }
{
    match location {
        Location::Whole(place) => push_whole(text, name, hart.content(*place)),
        Location::Parts(parts) => push_pieces(text, hart, name, parts.as_slice()),
    }
}

fn push_whole(text: &mut Text, name: &[u8], value: u64) -> Result<(), AllocError>
    ensures { OnOk result (text.new ≡ text.old ++ whole_text name.now value) }
{
    push_str(text, " ")?;
    push_name(text, name)?;
    push_str(text, "=")?;
    push_decimal(text, value)
}

fn push_pieces(text: &mut Text, hart: &Hart, name: &[u8], parts: &[Part]) -> Result<(), AllocError>
    requires { All IsReadablePiece parts.now }
    ensures { OnOk result ((s : State) → StandsFor hart.now s
        → text.new ≡ text.old ++ flat_map (piece_text name.now s) parts.now) }
{
    for part in parts {
        push_piece(text, hart, name, part)?;
    }
    Ok(())
}

/// Appends the value of a piece of a variable.
fn push_piece(text: &mut Text, hart: &Hart, name: &[u8], part: &Part) -> Result<(), AllocError>
    requires { IsReadablePiece part.now }
    ensures { OnOk result ((s : State) → StandsFor hart.now s → text.new ≡ text.old ++ piece_text name.now s part.now) }
{
    let value = low_bytes(hart.content(part.place), part.length);
    push_piece_value(text, name, part.offset, part.length, value)
}

fn push_piece_value(
    text: &mut Text,
    name: &[u8],
    offset: u32,
    length: u32,
    value: u64,
) -> Result<(), AllocError>
    ensures { OnOk result (text.new ≡ text.old ++ piece_value_text name.now offset length value) }
{
    push_str(text, " ")?;
    push_name(text, name)?;
    push_numbered(text, "[", offset)?;
    push_numbered(text, "+", length)?;
    push_str(text, "]=")?;
    push_decimal(text, value)
}
