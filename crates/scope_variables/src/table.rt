//! The variables of a program by their scopes.

ghost use Rattle.std.specs.Prelude.{◌≡◌, ℕ, Some, nat_eq, IfOk, OnOk};
ghost use Rattle.std.specs.Ordering.{nat_cmp};
ghost use Rattle.std.specs.Option.{option_eq};
ghost use Rattle.std.specs.BTreeMap.{get};
ghost use Rattle.scope_variables.specs.Scope.{most_files};
ghost use Rattle.scope_variables.specs.steps.Table.{nodes_or_none, with_node, AreByScope};

use crate::nodes::file_block_at;
use crate::scope::scope_within;
use base_ids::metadata::NodeId;
use base_list::List;
use read_debug_nodes::metadata::DebugMetadata;
use std::alloc::{AllocError, Global};
use std::collections::BTreeMap;

/// The variables of a program by their scopes.
#[derive(Drop)]
pub struct VariableTable {
    /// A number that the `DILexicalBlockFile` nodes are fewer than.
    pub most: usize,
    /// The variables that are declared in a scope, ascending, by the node of the scope.
    pub by_scope: BTreeMap<u32, List<NodeId>>,
}

impl VariableTable {
    /// The variables of the debug metadata by their scopes. The time is linear in the variables and in the
    /// `DILexicalBlockFile` nodes that are passed, times a logarithm. The error is out of memory.
    pub fn new(alloc: Global, debug: &DebugMetadata) -> Result<VariableTable, AllocError>
        ensures { IfOk result (AreByScope debug.now) }
    {
        let numbers = debug.numbers(alloc)?;
        let numbers = numbers.as_slice();
        let most = most_files(debug, numbers);
        let mut by_scope = BTreeMap::new(alloc);
        for number in numbers {
            add(
                alloc,
                &mut by_scope,
                scope_within(debug, most, *number),
                *number,
            )?;
        }
        Ok(VariableTable { most, by_scope })
    }
}

/// A number that the `DILexicalBlockFile` among these nodes are fewer than.
#[tactic(auto, unfolding(crate::specs::Scope::most_files))]
fn most_files(debug: &DebugMetadata, numbers: &[NodeId]) -> usize
    ensures { result ≡ most_files debug.now numbers.now }
{
    let files = numbers
        .iter()
        .filter(|number| file_block_at(debug, **number).is_some())
        .count();
    files + 1
}

/// Adds a variable to those of its scope, if it has one.
fn add(
    alloc: Global,
    by_scope: &mut BTreeMap<u32, List<NodeId>>,
    scope: Option<NodeId>,
    node: NodeId,
) -> Result<(), AllocError>
    ensures { OnOk result ((n : ℕ) → nodes_or_none (get nat_cmp by_scope.new n)
        ≡ with_node (option_eq nat_eq scope (Some n)) (nodes_or_none (get nat_cmp by_scope.old n)) node) }
{
    match scope {
        None => Ok(()),
        Some(scope) => add_in(alloc, by_scope, scope.number(), node),
    }
}

/// Adds a variable to those of a scope.
fn add_in(
    alloc: Global,
    by_scope: &mut BTreeMap<u32, List<NodeId>>,
    scope: u32,
    node: NodeId,
) -> Result<(), AllocError>
    ensures { OnOk result ((n : ℕ) → nodes_or_none (get nat_cmp by_scope.new n)
        ≡ with_node (nat_eq scope n) (nodes_or_none (get nat_cmp by_scope.old n)) node) }
{
    let mut nodes = nodes_or_none(alloc, by_scope.remove(&scope));
    nodes.push(node)?;
    drop(by_scope.insert(scope, nodes)?);
    Ok(())
}

/// The nodes, if there are some.
fn nodes_or_none(alloc: Global, nodes: Option<List<NodeId>>) -> List<NodeId>
    ensures { result ≡ nodes_or_none nodes }
{
    match nodes {
        Some(nodes) => nodes,
        None => List::new(alloc),
    }
}
