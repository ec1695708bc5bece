//! The variables of the scopes of a function.

ghost use Rattle.std.specs.Prelude.{◌≡◌, ◌++◌, List, [], map, filter, IfOk, OnOk};
ghost use Rattle.mir_func.specs.declared.variable.VarId.{VarId};
ghost use Rattle.scope_variables.specs.Order.{in_order, key};
ghost use Rattle.scope_variables.specs.Scope.{declared_in};
ghost use Rattle.scope_variables.specs.Variables.{variables_of_function, variables_of_scope};
ghost use Rattle.scope_variables.specs.steps.Listed.{is_own_within, placed};
ghost use Rattle.scope_variables.specs.steps.Marked.{AreMarked};
ghost use Rattle.scope_variables.specs.steps.Table.{AreByScope};

use crate::marked::MarkedVariables;
use crate::nodes::is_block;
use crate::order::insert_all;
use crate::scope::scope_within;
use crate::table::VariableTable;
use crate::variable::{ScopeVariable, ScopeVariables};
use base_ids::metadata::NodeId;
use mir_func::variable::VarId;
use read_debug_nodes::metadata::DebugMetadata;
use scope_ways::scope::LexicalScope;
use std::alloc::{AllocError, Global};
use std::collections::BTreeSet;

/// The variables of a scope: all that its source declares in it. The time is linear in them, times a logarithm. The
/// error is out of memory.
pub fn variables_of_scope(
    alloc: Global,
    debug: &DebugMetadata,
    table: &VariableTable,
    marked: &MarkedVariables,
    scope: &LexicalScope,
) -> Result<ScopeVariables, AllocError>
    requires { AreByScope debug.now table.now }
    ensures { (variables : List VarId) → AreMarked variables marked.now →
        IfOk result (λ made. made ≡ variables_of_scope debug.now variables scope.now) }
{
    let mut keys = BTreeSet::new(alloc);
    insert_declared(debug, table, &mut keys, scope.node)?;
    placed_variables(alloc, marked, scope, &keys)
}

/// The variables of a function itself, of which these have location lists: all that its subprogram declares, and each of
/// those with a list that isn't inlined and is declared in no lexical block. The time is linear in them, times a
/// logarithm. The error is out of memory.
pub fn variables_of_function(
    alloc: Global,
    debug: &DebugMetadata,
    table: &VariableTable,
    marked: &MarkedVariables,
    variables: &[VarId],
    subprogram: Option<NodeId>,
) -> Result<ScopeVariables, AllocError>
    requires table { AreByScope debug.now table.now }
    requires marked { AreMarked variables.now marked.now }
    ensures { IfOk result (λ made. made ≡ variables_of_function debug.now variables.now subprogram) }
{
    let own = own_variables(alloc, debug, table.most, variables)?;
    let scope = LexicalScope {
        node: subprogram,
        inlined_at: None,
    };
    variables_with(alloc, debug, table, marked, &scope, own.as_slice())
}

/// The variables of a scope, and further ones.
fn variables_with(
    alloc: Global,
    debug: &DebugMetadata,
    table: &VariableTable,
    marked: &MarkedVariables,
    scope: &LexicalScope,
    others: &[NodeId],
) -> Result<ScopeVariables, AllocError>
    requires { AreByScope debug.now table.now }
    ensures { IfOk result (λ made. made ≡ map (placed marked.now scope.now)
        (in_order [] (map (key debug.now) (declared_in debug.now scope.now.node ++ others.now)))) }
{
    let mut keys = BTreeSet::new(alloc);
    insert_declared(debug, table, &mut keys, scope.node)?;
    insert_all(debug, &mut keys, others)?;
    placed_variables(alloc, marked, scope, &keys)
}

/// Inserts the variables that are declared in a scope into an ordered list.
fn insert_declared(
    debug: &DebugMetadata,
    table: &VariableTable,
    keys: &mut BTreeSet<(u64, u32)>,
    scope: Option<NodeId>,
) -> Result<(), AllocError>
    requires { AreByScope debug.now table.now }
    ensures { OnOk result (keys.new.keys
        ≡ in_order keys.old.keys (map (key debug.now) (declared_in debug.now scope))) }
{
    let Some(scope) = scope else {
        return Ok(());
    };
    match table.by_scope.get(&scope.number()) {
        Some(nodes) => insert_all(debug, keys, nodes.as_slice()),
        None => Ok(()),
    }
}

/// Those of a function's variables that are its own.
fn own_variables(
    alloc: Global,
    debug: &DebugMetadata,
    most: usize,
    variables: &[VarId],
) -> Result<Vec<NodeId>, AllocError>
    ensures { IfOk result (λ own. own.items
        ≡ map (λ (v : VarId). v.node) (filter (is_own_within debug.now most) variables.now)) }
{
    variables
        .iter()
        .filter(|v| is_own(debug, most, *v))
        .map(|v| v.node)
        .collect(alloc)
}

/// Whether a variable is the function's own: it isn't inlined, and is declared in no lexical block.
fn is_own(debug: &DebugMetadata, most: usize, variable: &VarId) -> bool
    ensures { result ≡ is_own_within debug.now most variable.now }
{
    variable.inlined_at.is_none() && !is_block(debug, scope_within(debug, most, variable.node))
}

/// Variables of a scope with their lists.
fn placed_variables(
    alloc: Global,
    marked: &MarkedVariables,
    scope: &LexicalScope,
    keys: &BTreeSet<(u64, u32)>,
) -> Result<ScopeVariables, AllocError>
    ensures { IfOk result (λ made. made ≡ map (placed marked.now scope.now) keys.now.keys) }
{
    let mut made = ScopeVariables::new(alloc);
    for key in keys.iter() {
        made.push(placed(marked, scope, key))?;
    }
    Ok(made)
}

/// A variable of a scope with its list.
fn placed(marked: &MarkedVariables, scope: &LexicalScope, key: &(u64, u32)) -> ScopeVariable
    ensures { result ≡ placed marked.now scope.now key.now }
{
    let node = NodeId(key.1);
    ScopeVariable {
        node,
        list: marked.list(node, scope.inlined_at),
    }
}
