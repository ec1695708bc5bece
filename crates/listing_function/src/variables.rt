//! The lines of a function's variables.

ghost use Rattle.std.specs.Prelude.{◌≡◌, ◌+◌, ◌<◌, ◌^◌, length, IfOk};
ghost use Rattle.read_metadata.specs.Metadata.{variable_at};
ghost use Rattle.listing_function.specs.Variables.{name_of, variables_listed};

use base_ids::metadata::NodeId;
use base_list::List;
use listing_text::output::ListedVariable;
use mir_func::variable::VarId;
use read_metadata::metadata::Metadata;
use rv64_instr::name::Name;
use std::alloc::{AllocError, Global};

/// The listed variables of a function.
pub type ListedVariables = List<ListedVariable>;

/// The listed variables, with list numbers from `first` on. A variable whose node isn't readable has the empty name.
pub fn variable_lines(
    alloc: Global,
    meta: &Metadata,
    first: u32,
    variables: &[VarId],
) -> Result<ListedVariables, AllocError>
    requires { first + length variables.now < 2 ^ 32 }
    ensures { IfOk result (λ lines. lines ≡ variables_listed meta.now first variables.now) }
{
    let mut lines = ListedVariables::new(alloc);
    let mut list = first;
    for variable in variables {
        lines.push(ListedVariable {
            list,
            variable: *variable,
            name: name(alloc, meta, variable.node)?,
        })?;
        list += 1;
    }
    Ok(lines)
}

/// The name of the variable that a metadata node describes.
fn name(alloc: Global, meta: &Metadata, node: NodeId) -> Result<Name, AllocError>
    ensures { IfOk result (λ name. name ≡ name_of (variable_at meta.now node)) }
{
    match meta.variable(node) {
        Some(variable) => variable.name.copy(),
        None => Ok(Name::new(alloc)),
    }
}
