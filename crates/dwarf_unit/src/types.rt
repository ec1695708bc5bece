//! Base types, and their indices.

ghost use Rattle.std.specs.Prelude.{◌≡◌, ◌+◌, ◌-◌, ◌<◌, ◌≤◌, ◌^◌, [], ◌++◌, length, ℕ, List, Some, None};
ghost use Rattle.std.specs.Prelude.{nat_eq, OnOk, IfOk};
ghost use Rattle.std.specs.List.{position_or_len};
ghost use Rattle.read_metadata.specs.Metadata.{base_type_at};
ghost use Rattle.dwarf_line_table.specs.Files.{with_new};
ghost use Rattle.dwarf_unit.specs.Unit.{base_entry, base_entries};

use base_ids::metadata::NodeId;
use dwarf_info::unit::{BaseEntries, BaseEntry};
use indexmap::IndexSet;
use read_metadata::metadata::Metadata;
use read_metadata::node::BaseTypeNode;
use std::alloc::{AllocError, Global};
use std::marker::Model;

/// A list of base types' nodes without duplicates, in the order of their first use.
#[derive(Drop)]
pub struct Types {
    known: IndexSet<u32>,
}

impl Model for Types {
    ghost use Rattle.std.specs.Prelude.{List, ℕ};

    ghost Value = { List ℕ };

    ghost view = { λ t. t.known.keys };
}

impl Types {
    /// No types. It takes no memory.
    pub fn new(alloc: Global) -> Types
        ensures { result ≡ [] }
    {
        Types {
            known: IndexSet::new(alloc),
        }
    }

    /// The index of a node's type. A new one is appended. The error is out of memory.
    pub fn number(&mut self, node: NodeId) -> Result<u32, AllocError>
        requires few { length self.old < 2 ^ 32 - 2 }
        ensures known { OnOk result (self.new ≡ with_new nat_eq self.old node) }
        // It is its index, however many join later.
        ensures number { (more : List ℕ) → IfOk result (λ n. n ≡ position_or_len (nat_eq node) (self.new ++ more)) }
        ensures few { OnOk result (length self.new ≤ length self.old + 1) }
    {
        let (index, _) = self.known.insert_full(node.number())?;
        Ok(index as u32)
    }

    /// The entries of the types.
    pub fn entries(&self, alloc: Global, meta: &Metadata) -> Result<BaseEntries, AllocError>
        ensures { IfOk result (λ entries. entries ≡ base_entries meta.now self.now) }
    {
        entries(alloc, self.known.as_slice(), meta)
    }
}

fn entries(alloc: Global, nodes: &[u32], meta: &Metadata) -> Result<BaseEntries, AllocError>
    ensures { IfOk result (λ entries. entries ≡ base_entries meta.now nodes.now) }
{
    let mut entries = BaseEntries::new(alloc);
    for node in nodes {
        entries.push(base_entry(alloc, meta, *node)?)?;
    }
    Ok(entries)
}

fn base_entry(alloc: Global, meta: &Metadata, node: u32) -> Result<BaseEntry, AllocError>
    ensures { IfOk result (λ entry. entry ≡ base_entry (base_type_at meta.now node)) }
{
    match meta.base_type(NodeId(node)) {
        Some(base) => described(base),
        None => Ok(BaseEntry {
            name: base_list::List::new(alloc),
            size: 0,
            encoding: 0,
        }),
    }
}

fn described(base: &BaseTypeNode) -> Result<BaseEntry, AllocError>
    ensures { IfOk result (λ entry. entry ≡ base_entry (Some base.now)) }
{
    Ok(BaseEntry {
        name: base.name.copy()?,
        size: base.size.min(255) as u8,
        encoding: base.encoding,
    })
}
