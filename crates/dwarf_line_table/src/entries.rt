//! The directory and file entries of a line number table.

ghost use Rattle.std.specs.Prelude.{◌≡◌, ◌-◌, ◌<◌, ◌^◌, map, length, IfOk};
ghost use Rattle.dwarf_line_table.specs.Files.{dirs_of, entries_of, entry_zero};
ghost use Rattle.dwarf_line_table.specs.steps.Seen.{seen};

use crate::names::NameTable;
use base_list::List;
use dwarf_line::table::{FileEntries, FileEntry, NameList};
use std::alloc::{AllocError, Global};

/// Directories, and files that refer to them.
#[derive(Drop)]
pub struct Entries {
    /// The directories.
    pub dirs: NameList,
    /// The files.
    pub files: FileEntries,
}

/// The directories and files of names and directories. The error is out of memory.
pub fn make_entries(alloc: Global, keys: &[(Vec<u8>, Vec<u8>)]) -> Result<Entries, AllocError>
    requires { length keys.now < 2 ^ 32 - 2 }
    ensures dirs { IfOk result (λ e. e.dirs ≡ dirs_of (map seen keys.now)) }
    ensures files { IfOk result (λ e. e.files ≡ entries_of (map seen keys.now)) }
{
    let mut dirs = NameTable::new(alloc);
    let mut files = entry_zero(alloc, keys)?;
    for key in keys {
        let dir = dirs.number(alloc, key.1.as_slice())?;
        files.push(FileEntry {
            name: List::from_slice(alloc, key.0.as_slice())?,
            dir,
        })?;
    }
    Ok(Entries {
        dirs: dirs.list(alloc)?,
        files,
    })
}

/// The entry with number 0.
fn entry_zero(alloc: Global, keys: &[(Vec<u8>, Vec<u8>)]) -> Result<FileEntries, AllocError>
    ensures { IfOk result (λ files. files ≡ entry_zero (map seen keys.now)) }
{
    let mut files = FileEntries::new(alloc);
    if let Some(key) = keys.first() {
        files.push(FileEntry {
            name: List::from_slice(alloc, key.0.as_slice())?,
            dir: 0,
        })?;
    }
    Ok(files)
}
