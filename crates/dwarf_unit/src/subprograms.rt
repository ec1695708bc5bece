//! Subprograms that were inlined, and their indices.

ghost use Rattle.std.specs.Prelude.{◌≡◌, ◌++◌, [], map, List, Option, ℕ, nat_eq, OnOk, IfOk};
ghost use Rattle.std.specs.List.{position_or_len};
ghost use Rattle.std.specs.Option.{option_eq};
ghost use Rattle.dwarf_line_table.specs.Files.{with_new};
ghost use Rattle.dwarf_unit.specs.Inlined.{subprogram_name};

use crate::variables::number;
use base_ids::metadata::NodeId;
use base_list::List;
use dwarf_info::inlined::Names;
use dwarf_info::unit::Name;
use indexmap::IndexSet;
use read_metadata::metadata::Metadata;
use std::alloc::{AllocError, Global};
use std::marker::Model;

/// A list of subprograms' nodes without duplicates, in the order of their first use. Those that aren't readable are one.
#[derive(Drop)]
pub struct InlinedSubprograms {
    known: IndexSet<Option<u32>>,
}

impl Model for InlinedSubprograms {
    ghost use Rattle.std.specs.Prelude.{List, Option, ℕ};

    ghost Value = { List (Option ℕ) };

    ghost view = { λ s. s.known.keys };
}

impl InlinedSubprograms {
    /// No subprograms. It takes no memory.
    pub fn new(alloc: Global) -> InlinedSubprograms
        ensures { result ≡ [] }
    {
        InlinedSubprograms {
            known: IndexSet::new(alloc),
        }
    }

    /// The index of a subprogram. A new one is appended. The error is out of memory.
    pub fn number(&mut self, subprogram: Option<NodeId>) -> Result<usize, AllocError>
        ensures known { OnOk result (self.new ≡ with_new (option_eq nat_eq) self.old subprogram) }
        // It is its index, however many join later.
        ensures number { (more : List (Option ℕ)) →
            IfOk result (λ n. n ≡ position_or_len (option_eq nat_eq subprogram) (self.new ++ more)) }
    {
        let (index, _) = self.known.insert_full(number(subprogram))?;
        Ok(index)
    }

    /// The names of the subprograms.
    pub fn names(&self, alloc: Global, meta: &Metadata) -> Result<Names, AllocError>
        ensures { IfOk result (λ names. names ≡ map (subprogram_name meta.now) self.now) }
    {
        names(alloc, self.known.as_slice(), meta)
    }
}

fn names(alloc: Global, nodes: &[Option<u32>], meta: &Metadata) -> Result<Names, AllocError>
    ensures { IfOk result (λ names. names ≡ map (subprogram_name meta.now) nodes.now) }
{
    let mut names = Names::new(alloc);
    for node in nodes {
        names.push(subprogram_name(alloc, meta, *node)?)?;
    }
    Ok(names)
}

fn subprogram_name(alloc: Global, meta: &Metadata, node: Option<u32>) -> Result<Name, AllocError>
    ensures { IfOk result (λ name. name ≡ subprogram_name meta.now node) }
{
    match node {
        Some(number) => match meta.subprogram(NodeId(number)) {
            Some(subprogram) => subprogram.name.copy(),
            None => Ok(List::new(alloc)),
        },
        None => Ok(List::new(alloc)),
    }
}
