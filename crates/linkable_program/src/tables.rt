//! What the debug sections of a compiled program have.

ghost use Rattle.std.specs.Prelude.{◌≡◌, ◌-◌, ◌<◌, ◌≤◌, ◌^◌, [], length, map, true, false, is_some, All, IfOk, IfSome, IsErrOf};
ghost use Rattle.std.specs.List.{AllZip};
ghost use Rattle.dwarf_base.specs.Limits.{SECTION_LIMIT};
ghost use Rattle.dwarf_frame.specs.Spelling.{spelling as frame_spelling};
ghost use Rattle.dwarf_frame.specs.Table.{IsDescription};
ghost use Rattle.dwarf_line.specs.Table.{HasNames, IsSequence};
ghost use Rattle.dwarf_sections.specs.dwarf_line_table.Program.{MAX_FUNCTIONS};
ghost use Rattle.dwarf_sections.specs.Frame.{IsLargeFrameSection, IsOfFunction};
ghost use Rattle.dwarf_sections.specs.dwarf_unit.Unit.{program_variables};
ghost use Rattle.dwarf_rnglists.specs.Grammar.{IsSection as AreRanges};
ghost use Rattle.dwarf_rnglists.specs.Spelling.{spelling as ranges_spelling};
ghost use Rattle.frame_table.specs.Table.{Describes};
ghost use Rattle.prologue_lines.specs.Spelling.{spelling as rows_spelling};
ghost use Rattle.program_rows.specs.Program.{IsTableOf};
ghost use Rattle.linkable_command.specs.entry_placement.dwarf_entry.Entries.{RefersWithin};
ghost use Rattle.linkable_command.specs.Linkable.{entry_bytes, LOST};
ghost use Rattle.linkable_program.specs.Program.{AreEntriesLarge, AreRowsLarge, AreTables, AreTablesLarge, IsTreeOf};

use dwarf_frame::size::frame_size;
use dwarf_line::table::LineTable;
use dwarf_rnglists::range::AddressRangeLists;
use dwarf_rnglists::section::{ranges_size, write_ranges};
use dwarf_sections::dwarf_line_table_crate::source_and_code::SourceAndCode;
use dwarf_sections::sections::descriptions;
use elf_object::object::Bytes;
use linkable_command::entry_placement_crate::dwarf_entry_crate::tree::Tree;
use linkable_command::read_linkage_crate::linkages::read_linkages;
use linkable_command::sections::{LOST_REGISTERS, entry_size};
use linkable_command::tables::{DebugTables, FrameDescriptions};
use object_command::object::ObjectError;
use program_entries::program::program_unit;
use program_rows::table::program_table;
use prologue_lines::section::line_size;
use read_debug_nodes::metadata::{DebugMetadata, read_debug_metadata};
use read_metadata::metadata::Metadata;
use read_metadata::read_lexer_crate::line::Lines;
use std::alloc::{AllocError, Global};
use typed_unit::tree::tree_of;

/// The contents of the debug sections of functions, with `text_len` bytes of code, with `.debug_frame` if it is asked
/// for, and the linkages of functions, by the lines of the IR block. The error `TooLarge` is that a section would have
/// 2^31 bytes or more.
pub fn tables(
    alloc: Global,
    lines: &Lines,
    functions: &[SourceAndCode],
    meta: &Metadata,
    text_len: u32,
    with_frame: bool,
) -> Result<DebugTables, ObjectError>
    requires variables { length (program_variables functions.now) < 2 ^ 32 - 2 }
    requires functions { length functions.now ≤ MAX_FUNCTIONS }
    requires code { All (λ c. IsOfFunction c.code.now) functions.now }
    ensures tables { IfOk result (AreTables lines.now meta.now text_len with_frame functions.now) }
    ensures named { IsErrOf result ObjectError.SymbolName → ⊥ }
    ensures large { IsErrOf result ObjectError.TooLarge →
        AreTablesLarge lines.now meta.now text_len with_frame functions.now }
{
    let debug = read_debug_metadata(alloc, lines)?;
    let entries = entries(alloc, &debug, functions, meta, text_len, with_frame)?;
    let rows = rows(alloc, &debug, functions, meta)?;
    let frames = frames(alloc, functions, with_frame)?;
    let ranges = ranges(alloc)?;
    let linkages = read_linkages(alloc, lines.as_slice())?;
    Ok(DebugTables {
        entries,
        rows,
        frames,
        ranges,
        linkages,
    })
}

/// The tree of entries of functions, with `text_len` bytes of code.
fn entries(
    alloc: Global,
    debug: &DebugMetadata,
    functions: &[SourceAndCode],
    meta: &Metadata,
    text_len: u32,
    with_frame: bool,
) -> Result<Tree, ObjectError>
    requires { length (program_variables functions.now) < 2 ^ 32 - 2 }
    ensures tree { IfOk result (IsTreeOf debug.now meta.now text_len with_frame functions.now) }
    ensures references { IfOk result RefersWithin }
    ensures small { IfOk result (λ tree. length (entry_bytes tree) < SECTION_LIMIT) }
    ensures named { IsErrOf result ObjectError.SymbolName → ⊥ }
    ensures large { IsErrOf result ObjectError.TooLarge →
        AreEntriesLarge debug.now meta.now text_len with_frame functions.now }
{
    let unit = program_unit(alloc, debug, meta, functions, text_len, with_frame)?;
    let tree = tree_of(alloc, unit.types, &unit.content)?;
    let large = is_large(alloc, &tree)?;
    if large {
        return Err(ObjectError::TooLarge);
    }
    Ok(tree)
}

/// Whether the section of a tree would have 2^31 bytes or more. The error is out of memory.
fn is_large(alloc: Global, tree: &Tree) -> Result<bool, AllocError>
    ensures large { IfOk result (λ large. large ≡ true → SECTION_LIMIT ≤ length (entry_bytes tree.now)) }
    ensures small { IfOk result (λ large. large ≡ false → length (entry_bytes tree.now) < SECTION_LIMIT) }
{
    match entry_size(alloc, tree.as_slice())? {
        None => Ok(true),
        Some(_) => Ok(false),
    }
}

/// The rows of functions.
fn rows(
    alloc: Global,
    debug: &DebugMetadata,
    functions: &[SourceAndCode],
    meta: &Metadata,
) -> Result<LineTable, ObjectError>
    requires { length functions.now ≤ MAX_FUNCTIONS }
    ensures table { IfOk result (IsTableOf debug.now meta.now functions.now) }
    ensures names { IfOk result HasNames }
    ensures sequences { IfOk result (λ table. All IsSequence table.sequences) }
    ensures small { IfOk result (λ table. length (rows_spelling table) < SECTION_LIMIT) }
    ensures named { IsErrOf result ObjectError.SymbolName → ⊥ }
    ensures large { IsErrOf result ObjectError.TooLarge → AreRowsLarge debug.now meta.now functions.now }
{
    let table = program_table(alloc, debug, meta, functions)?;
    if line_size(&table).is_none() {
        return Err(ObjectError::TooLarge);
    }
    Ok(table)
}

/// The call frame information of functions, if it is asked for.
fn frames(
    alloc: Global,
    functions: &[SourceAndCode],
    with_frame: bool,
) -> Result<Option<FrameDescriptions>, ObjectError>
    requires { All (λ c. IsOfFunction c.code.now) functions.now }
    ensures present { IfOk result (λ o. is_some o ≡ with_frame) }
    ensures describe { IfOk result (λ o. IfSome o (AllZip Describes (map (λ c. c.code.now) functions.now))) }
    ensures each { IfOk result (λ o. IfSome o (All IsDescription)) }
    ensures small { IfOk result (λ o. IfSome o (λ fs. length (frame_spelling LOST fs) < SECTION_LIMIT)) }
    ensures named { IsErrOf result ObjectError.SymbolName → ⊥ }
    ensures large { IsErrOf result ObjectError.TooLarge →
        (with_frame ≡ true) × IsLargeFrameSection LOST (map (λ c. c.code.now) functions.now) }
{
    if with_frame {
        Ok(Some(described(alloc, functions)?))
    } else {
        Ok(None)
    }
}

/// The call frame information of functions.
fn described(alloc: Global, functions: &[SourceAndCode]) -> Result<FrameDescriptions, ObjectError>
    requires { All (λ c. IsOfFunction c.code.now) functions.now }
    ensures describe { IfOk result (AllZip Describes (map (λ c. c.code.now) functions.now)) }
    ensures each { IfOk result (All IsDescription) }
    ensures small { IfOk result (λ fs. length (frame_spelling LOST fs) < SECTION_LIMIT) }
    ensures named { IsErrOf result ObjectError.SymbolName → ⊥ }
    ensures large { IsErrOf result ObjectError.TooLarge →
        IsLargeFrameSection LOST (map (λ c. c.code.now) functions.now) }
{
    let table = descriptions(alloc, functions)?;
    if frame_size(&LOST_REGISTERS, table.as_slice()).is_none() {
        return Err(ObjectError::TooLarge);
    }
    Ok(table)
}

/// The section of range lists, of which there are none.
fn ranges(alloc: Global) -> Result<Bytes, ObjectError>
    ensures section { IfOk result (λ bytes. AreRanges bytes []) }
    ensures named { IsErrOf result ObjectError.SymbolName → ⊥ }
    ensures large { IsErrOf result ObjectError.TooLarge → SECTION_LIMIT ≤ length (ranges_spelling []) }
{
    let lists = AddressRangeLists::new(alloc);
    if ranges_size(&lists).is_none() {
        return Err(ObjectError::TooLarge);
    }
    Ok(write_ranges(alloc, &lists)?)
}
