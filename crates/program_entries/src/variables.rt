//! The entries of variables, by the debug metadata.

ghost use Rattle.std.specs.Prelude.{◌≡◌, IfOk};
ghost use Rattle.std.specs.Option.{option_copied, option_and_then};
ghost use Rattle.read_debug_nodes.specs.Metadata.{node_at};
ghost use Rattle.program_entries.specs.Variables;
ghost use Rattle.program_entries.specs.Variables.{as_variable};

use crate::declared::declared_in;
use base_ids::metadata::NodeId;
use base_list::List;
use dwarf_info::unit::VariableEntry;
use dwarf_line_table::file::SourceFile;
use mir_func::variable::VarId;
use read_debug_nodes::metadata::DebugMetadata;
use read_debug_nodes::node::{DebugNode, DebugVariable};
use read_types::indices::TypeNodes;
use std::alloc::{AllocError, Global};
use typed_unit::content::{Inner, Inside, TypedVariable};

/// The variable that a node is.
fn variable_at(debug: &DebugMetadata, node: NodeId) -> Option<&DebugVariable>
    ensures { option_copied result ≡ option_and_then as_variable (node_at debug.now node) }
{
    match debug.node(node)? {
        DebugNode::Variable(variable) => Some(variable),
        _ => None,
    }
}

/// The location list of the entry with this index.
fn list_at(entries: &[VariableEntry], index: usize) -> Option<u64>
    ensures { result ≡ Variables.list_at entries.now index }
{
    match entries.get(index) {
        None => None,
        Some(entry) => Some(u64::from(entry.list)),
    }
}

/// The variable that a node is, with a location list.
fn typed_variable(
    alloc: Global,
    debug: &DebugMetadata,
    types: &TypeNodes,
    unit: &SourceFile,
    node: NodeId,
    list: Option<u64>,
) -> Result<TypedVariable, AllocError>
    ensures { IfOk result (λ v. v
        ≡ Variables.typed_variable debug.now types.now unit.now
        (option_and_then as_variable (node_at debug.now node)) list) }
{
    match variable_at(debug, node) {
        None => Ok(TypedVariable {
            name: List::new(alloc),
            argument: false,
            declared: None,
            base: None,
            list,
        }),
        Some(v) => {
            let name = v.name.copy()?;
            Ok(TypedVariable {
                name,
                argument: 1 <= v.arg,
                declared: declared_in(unit, debug, v.file, v.line),
                base: types.index_of(v.type_node),
                list,
            })
        }
    }
}

/// The variables of a function, which have these entries. The error is out of memory.
pub fn typed_variables(
    alloc: Global,
    debug: &DebugMetadata,
    types: &TypeNodes,
    unit: &SourceFile,
    entries: &[VariableEntry],
    variables: &[VarId],
) -> Result<Inside, AllocError>
    ensures { IfOk result (λ inside. inside
        ≡ Variables.typed_variables debug.now types.now unit.now entries.now 0 variables.now) }
{
    let mut inside = Inside::new(alloc);
    for (index, v) in variables.iter().enumerate() {
        let list = list_at(entries, index);
        let variable = typed_variable(alloc, debug, types, unit, v.node, list)?;
        inside.push(Inner::Variable(variable))?;
    }
    Ok(inside)
}
