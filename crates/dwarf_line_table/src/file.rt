//! Source files, and their numbers.

ghost use Rattle.std.specs.Prelude.{◌≡◌, ◌+◌, ◌-◌, ◌<◌, ◌≤◌, ◌^◌, [], ◌++◌, length, List, OnOk, IfOk};
ghost use Rattle.dwarf_line_table.specs.declared.file.SourceFile.{SourceFile};
ghost use Rattle.dwarf_line_table.specs.Files.{number_in, with_new, is_file, dirs_of, entries_of};

use crate::entries::{Entries, make_entries};
use indexmap::IndexSet;
use mir_func::rv64_instr_crate::name::Name;
use std::alloc::{AllocError, Global};
use std::marker::Model;

/// A source file.
#[derive(Debug, Drop)]
pub struct SourceFile {
    /// Its name, without a zero byte.
    pub name: Name,
    /// Its directory, without a zero byte.
    pub dir: Name,
}

/// A list of files without duplicates, in the order of their first use. Two are the same if their names and directories
/// are.
#[derive(Drop)]
pub struct Files {
    known: IndexSet<(Vec<u8>, Vec<u8>)>,
}

impl Model for Files {
    ghost use Rattle.std.specs.Prelude.{List, map};
    ghost use Rattle.dwarf_line_table.specs.declared.file.SourceFile.{SourceFile};

    ghost Value = { List SourceFile };

    ghost view = { λ f. map (λ k. record { name = k.0.items; dir = k.1.items }) f.known.keys };
}

impl Files {
    /// No files. It takes no memory.
    pub fn new(alloc: Global) -> Files
        ensures { result ≡ [] }
    {
        Files {
            known: IndexSet::new(alloc),
        }
    }

    /// The number of a file, from 1. A new file is appended. The error is out of memory.
    pub fn number(&mut self, alloc: Global, name: &[u8], dir: &[u8]) -> Result<u32, AllocError>
        requires few { length self.old < 2 ^ 32 - 2 }
        ensures known { OnOk result
            (self.new ≡ with_new is_file self.old (record { name = name.now; dir = dir.now })) }
        // It is its number, however many join later.
        ensures number { (more : List SourceFile) →
            IfOk result (λ n. n ≡ number_in (self.new ++ more) (record { name = name.now; dir = dir.now })) }
        ensures few { OnOk result (length self.new ≤ length self.old + 1) }
    {
        let key = (Vec::from_slice(alloc, name)?, Vec::from_slice(alloc, dir)?);
        let (index, _) = self.known.insert_full(key)?;
        Ok(index as u32 + 1)
    }

    /// The directories and file entries of a line number table with these files. The error is out of memory.
    pub fn entries(&self, alloc: Global) -> Result<Entries, AllocError>
        requires { length self.now < 2 ^ 32 - 2 }
        ensures dirs { IfOk result (λ e. e.dirs ≡ dirs_of self.now) }
        ensures files { IfOk result (λ e. e.files ≡ entries_of self.now) }
    {
        make_entries(alloc, self.known.as_slice())
    }
}
