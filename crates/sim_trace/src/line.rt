//! The line of a step.

ghost use Rattle.std.specs.Prelude.{◌≡◌, ◌<◌, ◌^◌, ◌++◌, All, OnOk};
ghost use Rattle.sem_machine.specs.Machine.{Machine as State};
ghost use Rattle.sim_machine.specs.Kept.{StandsFor};
ghost use Rattle.sim_trace.specs.Lines.{head_text, step_line};
ghost use Rattle.sim_trace.specs.steps.Readable.{IsReadable};

use crate::value::push_variables;
use crate::variable::Variable;
use emit_code::code::EncodedInstruction;
use listing_text::hex::push_address;
use listing_text::line::push_origin;
use mir_func::position::Origin;
use mir_printer::text::{Text, push_decimal, push_str};
use sim_machine::hart::Hart;
use std::alloc::AllocError;

/// Appends the line of a step that executes an entry.
pub fn push_line(
    text: &mut Text,
    number: u32,
    entry: &EncodedInstruction,
    hart: &Hart,
    variables: &[Variable],
) -> Result<(), AllocError>
    requires readable { All IsReadable variables.now }
    requires at { entry.now.address ≡ hart.now.counter }
    requires low { entry.now.address < 2 ^ 32 }
    ensures { OnOk result ((s : State) → StandsFor hart.now s
        → text.new ≡ text.old ++ step_line number entry.now.origin variables.now s) }
{
    push_head(text, number, entry.address as u32, &entry.origin)?;
    push_variables(text, hart, variables)?;
    text.push(b'\n')
}

/// Appends a step's number, an address, and an origin.
fn push_head(text: &mut Text, number: u32, address: u32, origin: &Origin) -> Result<(), AllocError>
    ensures { OnOk result (text.new ≡ text.old ++ head_text number address origin.now) }
{
    push_decimal(text, number)?;
    push_str(text, " ")?;
    push_address(text, address)?;
    push_origin(text, origin)
}
