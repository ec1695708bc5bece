//! The numbers of files.

ghost use Rattle.std.specs.Prelude.{◌≡◌, ◌+◌, ◌-◌, ◌<◌, ◌≤◌, ◌^◌, ◌++◌, length, List, OnOk, IfOk};
ghost use Rattle.std.specs.Option.{option_copied, option_and_then};
ghost use Rattle.read_metadata.specs.Metadata.{file_of_scope_at};
ghost use Rattle.dwarf_line_table.specs.declared.file.SourceFile.{SourceFile};
ghost use Rattle.dwarf_line_table.specs.Files.{with_new, is_file};
ghost use Rattle.dwarf_line_table.specs.SourcePosition.{scope_file};
ghost use Rattle.prologue_rows.specs.Files.{table_file, known_name, number_of};

use base_ids::metadata::NodeId;
use base_list::List;
use dwarf_info::entry::text_of;
use dwarf_line_table::file::{Files, SourceFile};
use read_metadata::metadata::Metadata;
use read_metadata::node::FileNode;
use std::alloc::{AllocError, Global};

/// The name of a file without one.
static UNKNOWN: [u8; 7] = *b"unknown";

/// A file as the table has it: its names up to their first zero byte, and the name `unknown` for an empty one. The
/// error is out of memory.
pub fn table_file(alloc: Global, file: &SourceFile) -> Result<SourceFile, AllocError>
    ensures { IfOk result (λ f. f ≡ table_file file.now) }
{
    Ok(SourceFile {
        name: List::from_slice(alloc, known_name(text_of(file.name.as_slice())))?,
        dir: List::from_slice(alloc, text_of(file.dir.as_slice()))?,
    })
}

/// A name, or `unknown` for an empty one.
fn known_name(name: &[u8]) -> &[u8]
    ensures { result.now ≡ known_name name.now }
{
    match name {
        [] => &UNKNOWN,
        _ => name,
    }
}

/// The number of a file, from 0. A new file is appended. The error is out of memory.
pub fn file_number(
    alloc: Global,
    files: &mut Files,
    name: &[u8],
    dir: &[u8],
) -> Result<u32, AllocError>
    requires { length files.old < 2 ^ 32 - 2 }
    ensures known { OnOk result (files.new
        ≡ with_new is_file files.old (table_file (record { name = name.now; dir = dir.now }))) }
    // It is its number, however many join later.
    ensures number { (more : List SourceFile) → IfOk result (λ n. n
        ≡ number_of (files.new ++ more) (table_file (record { name = name.now; dir = dir.now }))) }
    ensures few { OnOk result (length files.new ≤ length files.old + 1) }
{
    let number = files.number(alloc, known_name(text_of(name)), text_of(dir))?;
    Ok(number - 1)
}

/// The number of the file of a scope, or of the unit's file if that isn't readable.
pub fn scope_number(
    alloc: Global,
    files: &mut Files,
    meta: &Metadata,
    unit: &SourceFile,
    scope: Option<NodeId>,
) -> Result<u32, AllocError>
    requires { length files.old < 2 ^ 32 - 2 }
    ensures known { OnOk result
        (files.new ≡ with_new is_file files.old (table_file (scope_file meta.now unit.now scope))) }
    ensures number { (more : List SourceFile) → IfOk result (λ n. n
        ≡ number_of (files.new ++ more) (table_file (scope_file meta.now unit.now scope))) }
    ensures few { OnOk result (length files.new ≤ length files.old + 1) }
{
    match readable_file(meta, scope) {
        Some(file) => file_number(
            alloc,
            files,
            text_of(file.name.as_slice()),
            text_of(file.dir.as_slice()),
        ),
        None => file_number(alloc, files, unit.name.as_slice(), unit.dir.as_slice()),
    }
}

/// The file of a scope.
fn readable_file(meta: &Metadata, scope: Option<NodeId>) -> Option<&FileNode>
    ensures { option_copied result ≡ option_and_then (file_of_scope_at meta.now) scope }
{
    meta.file_of_scope(scope?)
}
