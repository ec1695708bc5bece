//! The entries of variables.

ghost use Rattle.std.specs.Prelude.{◌≡◌, ◌+◌, ◌-◌, ◌<◌, ◌≤◌, ◌^◌, ◌++◌, length, List, ℕ, Some, nat_eq, OnOk, IfOk};
ghost use Rattle.std.specs.List.{flat_map};
ghost use Rattle.mir_func.specs.declared.variable.VarId.{VarId};
ghost use Rattle.dwarf_line_table.specs.Files.{first_uses};
ghost use Rattle.dwarf_unit.specs.Unit.{readable_type, listed, type_in, node_uses, node_entry};
ghost use Rattle.dwarf_unit.specs.Unit.{type_uses, variable_entry, variables_from};

use crate::types::Types;
use base_ids::metadata::NodeId;
use dwarf_info::unit::{VariableEntries, VariableEntry};
use mir_func::variable::VarId;
use read_metadata::metadata::Metadata;
use read_metadata::node::VariableNode;
use std::alloc::{AllocError, Global};

/// The node of a base type, if it is readable.
fn readable_type(meta: &Metadata, base: Option<NodeId>) -> Option<NodeId>
    ensures { result ≡ readable_type meta.now base }
{
    let node = base?;
    let _ = meta.base_type(node)?;
    Some(node)
}

/// The index of a type, if there is one.
fn type_number(types: &mut Types, node: Option<NodeId>) -> Result<Option<u32>, AllocError>
    requires room { length types.old < 2 ^ 32 - 2 }
    ensures known { OnOk result (types.new ≡ first_uses nat_eq types.old (listed node)) }
    ensures number { (more : List ℕ) → IfOk result (λ n. n ≡ type_in (types.new ++ more) node) }
    ensures few { OnOk result (length types.new ≤ length types.old + 1) }
{
    match node {
        None => Ok(None),
        Some(n) => Ok(Some(types.number(n)?)),
    }
}

/// The entry of a variable that a node describes.
fn described(
    types: &mut Types,
    meta: &Metadata,
    node: &VariableNode,
    list: u32,
) -> Result<VariableEntry, AllocError>
    requires room { length types.old < 2 ^ 32 - 2 }
    ensures known { OnOk result (types.new ≡ first_uses nat_eq types.old (node_uses meta.now (Some node.now))) }
    ensures entry { (more : List ℕ) →
        IfOk result (λ e. e ≡ node_entry meta.now (types.new ++ more) (Some node.now) list) }
    ensures few { OnOk result (length types.new ≤ length types.old + 1) }
{
    Ok(VariableEntry {
        name: node.name.copy()?,
        argument: 1 <= node.arg,
        base: type_number(types, readable_type(meta, node.base))?,
        list,
    })
}

/// The entry of a variable.
pub fn variable_entry(
    alloc: Global,
    types: &mut Types,
    meta: &Metadata,
    list: u32,
    v: &VarId,
) -> Result<VariableEntry, AllocError>
    requires room { length types.old < 2 ^ 32 - 2 }
    ensures known { OnOk result (types.new ≡ first_uses nat_eq types.old (type_uses meta.now v.now)) }
    ensures entry { (more : List ℕ) →
        IfOk result (λ e. e ≡ variable_entry meta.now (types.new ++ more) list v.now) }
    ensures few { OnOk result (length types.new ≤ length types.old + 1) }
{
    match meta.variable(v.node) {
        Some(node) => described(types, meta, node, list),
        None => Ok(VariableEntry {
            name: base_list::List::new(alloc),
            argument: false,
            base: None,
            list,
        }),
    }
}

/// The entries of variables, with location lists numbered from this index on.
pub fn variables_from(
    alloc: Global,
    types: &mut Types,
    meta: &Metadata,
    first: u32,
    variables: &[VarId],
) -> Result<VariableEntries, AllocError>
    requires room { length types.old + length variables.now < 2 ^ 32 - 2 }
    requires lists { first + length variables.now < 2 ^ 32 }
    ensures known { OnOk result
        (types.new ≡ first_uses nat_eq types.old (flat_map (type_uses meta.now) variables.now)) }
    // Whatever types join later.
    ensures entries { (more : List ℕ) →
        IfOk result (λ es. es ≡ variables_from meta.now (types.new ++ more) first variables.now) }
    ensures few { OnOk result (length types.new ≤ length types.old + length variables.now) }
{
    let mut entries = VariableEntries::new(alloc);
    let mut list = first;
    for v in variables {
        entries.push(variable_entry(alloc, types, meta, list, v)?)?;
        list += 1;
    }
    Ok(entries)
}
