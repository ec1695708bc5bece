//! The variables of functions.

ghost use Rattle.std.specs.Prelude.{◌≡◌, [], map, OnOk, IfOk};
ghost use Rattle.mir_func.specs.Variables.{is_same_variable};
ghost use Rattle.dwarf_line_table.specs.Files.{with_new, first_uses};
ghost use Rattle.dwarf_unit.specs.Variables.{whole, marked, marks_of, variables_of_function};
ghost use Rattle.dwarf_unit.specs.steps.Keys.{seen};

use base_ids::metadata::NodeId;
use base_list::List;
use indexmap::IndexSet;
use mir_func::block::Block;
use mir_func::item::{Item, ItemKind};
use mir_func::variable::VarId;
use std::alloc::{AllocError, Global};
use std::marker::Model;

/// Variables, each as a whole, in the order of their location lists.
pub type VarIds = List<VarId>;

/// A list of variables without duplicates, in the order of their first debug values. A variable is identified by its
/// node and the node that it is inlined at.
#[derive(Drop)]
struct Known {
    keys: IndexSet<(u32, Option<u32>)>,
}

impl Model for Known {
    ghost use Rattle.std.specs.Prelude.{List, map};
    ghost use Rattle.mir_func.specs.declared.variable.VarId.{VarId};
    ghost use Rattle.dwarf_unit.specs.steps.Keys.{seen};

    ghost Value = { List VarId };

    ghost view = { λ k. map seen k.keys.keys };
}

impl Known {
    /// No variables. It takes no memory.
    fn new(alloc: Global) -> Known
        ensures { result ≡ [] }
    {
        Known {
            keys: IndexSet::new(alloc),
        }
    }

    /// Adds the variable of a part, unless it is in the list.
    fn add(&mut self, v: &VarId) -> Result<(), AllocError>
        ensures { OnOk result (self.new ≡ with_new is_same_variable self.old (whole v.now)) }
    {
        self.keys
            .insert_full((v.node.number(), number(v.inlined_at)))?;
        Ok(())
    }

    /// Adds the variables of the items' debug values.
    fn add_all(&mut self, items: &[Item]) -> Result<(), AllocError>
        ensures { OnOk result (self.new ≡ first_uses is_same_variable self.old (marks_of items.now)) }
    {
        for item in items {
            self.add_mark(&item.kind)?;
        }
        Ok(())
    }

    /// Adds the variable of an item that is a debug value.
    fn add_mark(&mut self, kind: &ItemKind) -> Result<(), AllocError>
        ensures { OnOk result (self.new ≡ first_uses is_same_variable self.old (marked kind.now)) }
    {
        match kind {
            ItemKind::Mark(v, _) => self.add(v),
            ItemKind::Code(_, _) | ItemKind::Phi(_, _) => Ok(()),
        }
    }

    /// The variables in order.
    fn list(&self, alloc: Global) -> Result<VarIds, AllocError>
        ensures { IfOk result (λ variables. variables ≡ self.now) }
    {
        list(alloc, self.keys.as_slice())
    }
}

/// The number of a node, if there is one.
pub fn number(node: Option<NodeId>) -> Option<u32>
    ensures { result ≡ node }
{
    node.map(|n| n.number())
}

fn list(alloc: Global, keys: &[(u32, Option<u32>)]) -> Result<VarIds, AllocError>
    ensures { IfOk result (λ variables. variables ≡ map seen keys.now) }
{
    let variables: Vec<VarId> = keys.iter().map(|key| variable(key)).collect(alloc)?;
    Ok(List::from(variables))
}

fn variable(key: &(u32, Option<u32>)) -> VarId
    ensures { result ≡ seen key.now }
{
    VarId {
        node: NodeId(key.0),
        inlined_at: key.1.map(|n| NodeId(n)),
        fragment: None,
    }
}

/// The variables of a function's blocks, each as a whole, in the order of the first debug value for any of its parts.
/// It takes O(n log n) time in the number of items. The error is out of memory.
pub fn variables(alloc: Global, blocks: &[Block]) -> Result<VarIds, AllocError>
    ensures { IfOk result (λ variables. variables ≡ variables_of_function blocks.now) }
{
    let mut known = Known::new(alloc);
    for block in blocks {
        known.add_all(block.items.as_slice())?;
    }
    known.list(alloc)
}
