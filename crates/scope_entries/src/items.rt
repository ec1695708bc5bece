//! What stands inside a function.

ghost use Rattle.std.specs.Prelude.{◌≡◌, ◌++◌, List, map, IfOk, OnOk};
ghost use Rattle.std.specs.Option.{option_copied};
ghost use Rattle.mir_func.specs.declared.variable.VarId.{VarId};
ghost use Rattle.scope_variables.specs.steps.Marked.{AreMarked};
ghost use Rattle.scope_variables.specs.steps.Table.{AreByScope};
ghost use Rattle.scope_variables.specs.declared.variable.ScopeVariable.{ScopeVariable};
ghost use Rattle.scope_entries.specs.declared.item.ScopeItem.TheVariants.{Variable};
ghost use Rattle.scope_entries.specs.Prefix.{IsForest};
ghost use Rattle.scope_entries.specs.Items.{begin_items, closed, end_items, is_block, is_told_by, items_of, opened, step_items};

use crate::item::{ScopeItem, ScopeItems};
use crate::step::ScopeStep;
use crate::steps::steps;
use base_ids::metadata::NodeId;
use mir_func::variable::VarId;
use read_debug_nodes::metadata::DebugMetadata;
use read_metadata::metadata::Metadata;
use scope_ranges::scope::Scope;
use scope_variables::marked::MarkedVariables;
use scope_variables::table::VariableTable;
use scope_variables::variable::ScopeVariable;
use scope_variables::variables::{variables_of_function, variables_of_scope};
use scope_ways::scope::LexicalScope;
use std::alloc::{AllocError, Global};

/// What stands inside a function with these scopes, of whose variables these have location lists, in their order. The
/// table has the variables of the program. The time is linear in the scopes and their variables, times a logarithm. The
/// error is out of memory.
pub fn scope_items(
    alloc: Global,
    meta: &Metadata,
    debug: &DebugMetadata,
    table: &VariableTable,
    variables: &[VarId],
    subprogram: Option<NodeId>,
    scopes: &[Scope],
) -> Result<ScopeItems, AllocError>
    requires table { AreByScope debug.now table.now }
    requires forest { IsForest scopes.now }
    ensures { IfOk result (λ items. items ≡ items_of meta.now debug.now variables.now subprogram scopes.now) }
{
    let marked = MarkedVariables::new(alloc, variables)?;
    let own = variables_of_function(alloc, debug, table, &marked, variables, subprogram)?;
    let steps = steps(alloc, scopes)?;
    let mut items = ScopeItems::new(alloc);
    push_variables(&mut items, own.as_slice())?;
    for step in steps.as_slice() {
        push_step(
            &mut items, alloc, meta, debug, table, &marked, scopes, *step,
        )?;
    }
    Ok(items)
}

/// Appends variables.
fn push_variables(items: &mut ScopeItems, variables: &[ScopeVariable]) -> Result<(), AllocError>
    ensures { OnOk result (items.new ≡ items.old ++ map Variable variables.now) }
{
    for variable in variables {
        items.push(ScopeItem::Variable(*variable))?;
    }
    Ok(())
}

/// Whether a scope is a lexical block.
fn is_block(meta: &Metadata, scope: &LexicalScope) -> bool
    ensures { result ≡ is_block meta.now scope.now }
{
    match scope.node {
        Some(node) => meta.block(node).is_some(),
        None => false,
    }
}

/// Whether a scope with these variables is told: a lexical block without variables isn't.
fn is_told(block: bool, variables: &[ScopeVariable]) -> bool
    ensures { result ≡ is_told_by block variables.now }
{
    !(block && variables.is_empty())
}

/// Appends the items of the begin of a scope.
fn push_begin(
    items: &mut ScopeItems,
    block: bool,
    index: usize,
    variables: &[ScopeVariable],
) -> Result<(), AllocError>
    ensures { OnOk result (items.new ≡ items.old ++ begin_items block index variables.now) }
{
    if is_told(block, variables) {
        items.push(ScopeItem::Open(index))?;
        push_variables(items, variables)
    } else {
        Ok(())
    }
}

/// Appends the items of the end of a scope.
fn push_end(
    items: &mut ScopeItems,
    block: bool,
    variables: &[ScopeVariable],
) -> Result<(), AllocError>
    ensures { OnOk result (items.new ≡ items.old ++ end_items block variables.now) }
{
    if is_told(block, variables) {
        items.push(ScopeItem::End)
    } else {
        Ok(())
    }
}

/// Appends the items of the begin of the scope with an index, if there is one.
fn push_opened(
    items: &mut ScopeItems,
    alloc: Global,
    meta: &Metadata,
    debug: &DebugMetadata,
    table: &VariableTable,
    marked: &MarkedVariables,
    index: usize,
    scope: Option<&Scope>,
) -> Result<(), AllocError>
    requires { AreByScope debug.now table.now }
    ensures { (variables : List VarId) → AreMarked variables marked.now →
        OnOk result (items.new ≡ items.old ++ opened meta.now debug.now variables index (option_copied scope.entry)) }
{
    let Some(scope) = scope else {
        return Ok(());
    };
    let variables = variables_of_scope(alloc, debug, table, marked, &scope.place)?;
    push_begin(
        items,
        is_block(meta, &scope.place),
        index,
        variables.as_slice(),
    )
}

/// Appends the items of the end of a scope, if there is one.
fn push_closed(
    items: &mut ScopeItems,
    alloc: Global,
    meta: &Metadata,
    debug: &DebugMetadata,
    table: &VariableTable,
    marked: &MarkedVariables,
    scope: Option<&Scope>,
) -> Result<(), AllocError>
    requires { AreByScope debug.now table.now }
    ensures { (variables : List VarId) → AreMarked variables marked.now →
        OnOk result (items.new ≡ items.old ++ closed meta.now debug.now variables (option_copied scope.entry)) }
{
    let Some(scope) = scope else {
        return Ok(());
    };
    let variables = variables_of_scope(alloc, debug, table, marked, &scope.place)?;
    push_end(items, is_block(meta, &scope.place), variables.as_slice())
}

/// Appends the items of a step.
fn push_step(
    items: &mut ScopeItems,
    alloc: Global,
    meta: &Metadata,
    debug: &DebugMetadata,
    table: &VariableTable,
    marked: &MarkedVariables,
    scopes: &[Scope],
    step: ScopeStep,
) -> Result<(), AllocError>
    requires { AreByScope debug.now table.now }
    ensures { (variables : List VarId) → AreMarked variables marked.now →
        OnOk result (items.new ≡ items.old ++ step_items meta.now debug.now variables scopes.now step) }
{
    match step {
        ScopeStep::Open(index) => {
            let scope = scopes.get(index);
            push_opened(items, alloc, meta, debug, table, marked, index, scope)
        }
        ScopeStep::Close(index) => {
            let scope = scopes.get(index);
            push_closed(items, alloc, meta, debug, table, marked, scope)
        }
    }
}
