//! Names, and their indices.

ghost use Rattle.std.specs.Prelude.{◌≡◌, ◌+◌, ◌-◌, ◌<◌, ◌≤◌, ◌^◌, [], ◌++◌, length, map, List, ℕ, OnOk, IfOk};
ghost use Rattle.std.specs.List.{position_or_len};
ghost use Rattle.dwarf_line_table.specs.Files.{with_new, is_name};

use dwarf_line::table::NameList;
use indexmap::IndexSet;
use std::alloc::{AllocError, Global};
use std::marker::Model;

/// A list of names without duplicates, in the order of their first use.
#[derive(Drop)]
pub struct NameTable {
    known: IndexSet<Vec<u8>>,
}

impl Model for NameTable {
    ghost use Rattle.std.specs.Prelude.{List, ℕ, map};

    ghost Value = { List (List ℕ) };

    ghost view = { λ n. map (λ k. k.items) n.known.keys };
}

impl NameTable {
    /// No names. It takes no memory.
    pub fn new(alloc: Global) -> NameTable
        ensures { result ≡ [] }
    {
        NameTable {
            known: IndexSet::new(alloc),
        }
    }

    /// The index of a name, from 0. A new name is appended. The error is out of memory.
    pub fn number(&mut self, alloc: Global, name: &[u8]) -> Result<u32, AllocError>
        requires few { length self.old < 2 ^ 32 - 2 }
        ensures known { OnOk result (self.new ≡ with_new is_name self.old name.now) }
        // It is its number, however many join later.
        ensures number { (more : List (List ℕ)) →
            IfOk result (λ n. n ≡ position_or_len (is_name name.now) (self.new ++ more)) }
        ensures few { OnOk result (length self.new ≤ length self.old + 1) }
    {
        let (index, _) = self.known.insert_full(Vec::from_slice(alloc, name)?)?;
        Ok(index as u32)
    }

    /// The names in order. The error is out of memory.
    pub fn list(&self, alloc: Global) -> Result<NameList, AllocError>
        ensures { IfOk result (λ names. names ≡ self.now) }
    {
        list(alloc, self.known.as_slice())
    }
}

fn list(alloc: Global, keys: &[Vec<u8>]) -> Result<NameList, AllocError>
    ensures { IfOk result (λ names. names ≡ map (λ k. k.items) keys.now) }
{
    let mut names = NameList::new(alloc);
    for key in keys {
        names.push(base_list::List::from_slice(alloc, key.as_slice())?)?;
    }
    Ok(names)
}
