//! The debug sections of functions and their machine code.

ghost use Rattle.std.specs.Prelude.{◌≡◌, ◌-◌, ◌<◌, ◌≤◌, ◌^◌, [], All, IfOk, IsErrOf, length, map};
ghost use Rattle.std.specs.List.{AllZip};
ghost use Rattle.dwarf_frame.specs.Table.{IsDescription};
ghost use Rattle.dwarf_info.specs.Entries.{spelling as entries_spelling};
ghost use Rattle.dwarf_line.specs.Spelling.{spelling as rows_spelling};
ghost use Rattle.dwarf_loclists.specs.Spelling.{spelling as lists_spelling};
ghost use Rattle.dwarf_loclists.specs.Ranges.{Ascend, ArePlaces};
ghost use Rattle.dwarf_loclists.specs.Grammar.{IsSection};
ghost use Rattle.dwarf_sections.specs.declared.sections.SectionError.TheVariants.{Memory};
ghost use Rattle.dwarf_sections.specs.Frame.{IsOfFunction, IsFrameSection, IsLargeFrameSection};
ghost use Rattle.frame_table.specs.Table.{Describes};
ghost use Rattle.dwarf_unit.specs.dwarf_line_table.Program.{MAX_FUNCTIONS, table_of};
ghost use Rattle.dwarf_unit.specs.Unit.{program_variables, unit_of};
ghost use Rattle.dwarf_base.specs.Limits.{SECTION_LIMIT};

use base_list::List;
use dwarf_frame::size::frame_size;
use dwarf_frame::table::FrameDescription;
use dwarf_frame::write::write_frame;
use dwarf_info::size::info_size;
use dwarf_info::write::write_info;
use dwarf_line::size::line_size;
use dwarf_line::write::write_line;
use dwarf_loclists::range::RangeLists;
use dwarf_loclists::section::{lists_size, write_lists};
use dwarf_unit::dwarf_line_table_crate::line_table::line_table;
use dwarf_unit::dwarf_line_table_crate::source_and_code::SourceAndCode;
use dwarf_unit::unit::make_unit;
use frame_table::description::description;
use listing_text::output::Bytes;
use read_metadata::metadata::Metadata;
use std::alloc::{AllocError, Global};
use thiserror::Error;

/// Why a section can't be written.
#[derive(Clone, Copy, Debug, PartialEq, Eq, Error)]
pub enum SectionError {
    /// It would have 2^31 bytes or more.
    #[error("the section is too large")]
    TooLarge,
    /// Memory ran out.
    #[error("out of memory")]
    Memory,
}

impl From<AllocError> for SectionError {
    ghost from_gives = { λ _ e. e ≡ Memory };

    fn from(_: AllocError) -> SectionError {
        SectionError::Memory
    }
}

/// The section `.debug_info` of functions, with `text_len` bytes of code. It is `TooLarge` exactly from 2^31 bytes on.
pub fn info(
    alloc: Global,
    functions: &[SourceAndCode],
    meta: &Metadata,
    text_len: u32,
) -> Result<Bytes, SectionError>
    requires { length (program_variables functions.now) < 2 ^ 32 - 2 }
    ensures bytes { IfOk result (λ bytes. bytes ≡ entries_spelling (unit_of meta.now text_len functions.now)) }
    ensures small { IfOk result (λ bytes. length bytes < SECTION_LIMIT) }
    ensures large { IsErrOf result SectionError.TooLarge →
        SECTION_LIMIT ≤ length (entries_spelling (unit_of meta.now text_len functions.now)) }
{
    let unit = make_unit(alloc, functions, meta, text_len)?;
    if info_size(&unit).is_none() {
        return Err(SectionError::TooLarge);
    }
    Ok(write_info(alloc, &unit)?)
}

/// The section `.debug_line` of functions. It is `TooLarge` exactly from 2^31 bytes on.
pub fn rows(
    alloc: Global,
    functions: &[SourceAndCode],
    meta: &Metadata,
) -> Result<Bytes, SectionError>
    requires { length functions.now ≤ MAX_FUNCTIONS }
    ensures bytes { IfOk result (λ bytes. bytes ≡ rows_spelling (table_of meta.now functions.now)) }
    ensures small { IfOk result (λ bytes. length bytes < SECTION_LIMIT) }
    ensures large { IsErrOf result SectionError.TooLarge →
        SECTION_LIMIT ≤ length (rows_spelling (table_of meta.now functions.now)) }
{
    let table = line_table(alloc, functions, meta)?;
    if line_size(&table).is_none() {
        return Err(SectionError::TooLarge);
    }
    Ok(write_line(alloc, &table)?)
}

/// The section `.debug_loclists` of location lists. It is `TooLarge` exactly from 2^31 bytes on.
pub fn loclists(alloc: Global, lists: &RangeLists) -> Result<Bytes, SectionError>
    requires ascend { All Ascend lists.now }
    requires places { All ArePlaces lists.now }
    ensures section { IfOk result (λ bytes. IsSection bytes lists.now) }
    ensures small { IfOk result (λ bytes. length bytes < SECTION_LIMIT) }
    ensures large { IsErrOf result SectionError.TooLarge →
        SECTION_LIMIT ≤ length (lists_spelling lists.now) }
{
    if lists_size(lists).is_none() {
        return Err(SectionError::TooLarge);
    }
    Ok(write_lists(alloc, lists)?)
}

/// The section `.debug_frame` of functions, in which no register is undefined. It is `TooLarge` exactly from 2^31 bytes
/// on.
pub fn frame(alloc: Global, functions: &[SourceAndCode]) -> Result<Bytes, SectionError>
    requires { All (λ c. IsOfFunction c.code.now) functions.now }
    ensures section { IfOk result (IsFrameSection [] (map (λ c. c.code.now) functions.now)) }
    ensures small { IfOk result (λ bytes. length bytes < SECTION_LIMIT) }
    ensures large { IsErrOf result SectionError.TooLarge →
        IsLargeFrameSection [] (map (λ c. c.code.now) functions.now) }
{
    let table = descriptions(alloc, functions)?;
    if frame_size(&[], table.as_slice()).is_none() {
        return Err(SectionError::TooLarge);
    }
    Ok(write_frame(alloc, &[], table.as_slice())?)
}

/// The call frame information of functions' code, in their order.
pub fn descriptions(
    alloc: Global,
    functions: &[SourceAndCode],
) -> Result<List<FrameDescription>, AllocError>
    requires { All (λ c. IsOfFunction c.code.now) functions.now }
    ensures describe { IfOk result (AllZip Describes (map (λ c. c.code.now) functions.now)) }
    ensures writable { IfOk result (All IsDescription) }
{
    let mut table = List::new(alloc);
    for function in functions {
        table.push(description(alloc, function.code)?)?;
    }
    Ok(table)
}
