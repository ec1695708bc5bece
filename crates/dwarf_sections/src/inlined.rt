//! The debug sections of functions with their inlined functions.

ghost use Rattle.std.specs.Prelude.{◌≡◌, ◌-◌, ◌<◌, ◌≤◌, ◌^◌, ◌++◌, map, All, IfOk, OnOk, IsErrOf, length};
ghost use Rattle.dwarf_base.specs.Limits.{SECTION_LIMIT};
ghost use Rattle.dwarf_unit.specs.dwarf_line_table.Program.{MAX_FUNCTIONS};
ghost use Rattle.dwarf_rnglists.specs.Ranges.{Ascend};
ghost use Rattle.dwarf_unit.specs.Unit.{program_variables};
ghost use Rattle.dwarf_sections.specs.Inlined.{HaveInstances, AreInlinedSections, IsLargeInlined, range_lists};

use crate::sections::SectionError;
use base_list::List;
use dwarf_info::inlined_write::write_inlined_info;
use dwarf_line::size::line_size;
use dwarf_line::write::write_line;
use dwarf_rnglists::range::AddressRangeLists;
use dwarf_rnglists::section::{ranges_size, write_ranges};
use dwarf_unit::dwarf_line_table_crate::line_table::{NumberedTable, line_table_with};
use dwarf_unit::dwarf_line_table_crate::source_and_code::SourceAndCode;
use dwarf_unit::inline_subroutines_crate::subprogram::Subprograms;
use dwarf_unit::inline_subroutines_crate::subroutine::{InlinedSubroutine, InlinedSubroutines};
use dwarf_unit::inline_subroutines_crate::subroutines::subroutines;
use dwarf_unit::inlined::{call_scopes, make_inlined_unit};
use listing_text::output::Bytes;
use read_metadata::metadata::Metadata;
use std::alloc::{AllocError, Global};

/// The sections that tell of inlined functions.
#[derive(Debug, Drop)]
pub struct InlinedSections {
    /// `.debug_info`.
    pub info: Bytes,
    /// `.debug_line`.
    pub rows: Bytes,
    /// `.debug_rnglists`.
    pub ranges: Bytes,
}

/// The sections `.debug_info`, `.debug_line` and `.debug_rnglists` of functions with their inlined functions, and
/// `text_len` bytes of code. It is `TooLarge` only if one of them would have 2^31 bytes or more.
pub fn inlined(
    alloc: Global,
    functions: &[SourceAndCode],
    meta: &Metadata,
    text_len: u32,
) -> Result<InlinedSections, SectionError>
    requires variables { length (program_variables functions.now) < 2 ^ 32 - 2 }
    requires functions { length functions.now ≤ MAX_FUNCTIONS }
    ensures sections { IfOk result (λ s. AreInlinedSections meta.now text_len functions.now s.info s.rows s.ranges) }
    ensures info_small { IfOk result (λ s. length s.info < SECTION_LIMIT) }
    ensures rows_small { IfOk result (λ s. length s.rows < SECTION_LIMIT) }
    ensures ranges_small { IfOk result (λ s. length s.ranges < SECTION_LIMIT) }
    ensures large { IsErrOf result SectionError.TooLarge → IsLargeInlined meta.now text_len functions.now }
{
    let instances = all_instances(alloc, functions, meta)?;
    let instances = instances.as_slice();
    let lists = range_lists(alloc, instances)?;
    if ranges_size(&lists).is_none() {
        return Err(SectionError::TooLarge);
    }
    let ranges = write_ranges(alloc, &lists)?;
    let scopes = call_scopes(alloc, meta, instances)?;
    let NumberedTable { table, numbers } = line_table_with(
        alloc,
        functions,
        meta,
        scopes.as_slice(),
    )?;
    if line_size(&table).is_none() {
        return Err(SectionError::TooLarge);
    }
    let rows = write_line(alloc, &table)?;
    let numbers = numbers.as_slice();
    let unit = make_inlined_unit(alloc, functions, meta, text_len, instances, numbers)?;
    match write_inlined_info(alloc, &unit)? {
        Some(info) => Ok(InlinedSections { info, rows, ranges }),
        None => Err(SectionError::TooLarge),
    }
}

/// The instances of each function.
fn all_instances(
    alloc: Global,
    functions: &[SourceAndCode],
    meta: &Metadata,
) -> Result<List<InlinedSubroutines>, AllocError>
    ensures have { IfOk result (HaveInstances meta.now functions.now) }
    ensures ascend { IfOk result (All (λ is. All (λ i. Ascend i.ranges) is)) }
{
    let mut subprograms = Subprograms::new(alloc);
    let mut all = List::new(alloc);
    for function in functions {
        // The code stands from its first address on.
        let code = function.code;
        let _ = &code.base;
        all.push(subroutines(alloc, &mut subprograms, function, meta)?)?;
    }
    Ok(all)
}

/// The range lists of all instances, in their order.
fn range_lists(alloc: Global, all: &[InlinedSubroutines]) -> Result<AddressRangeLists, AllocError>
    ensures { IfOk result (λ lists. lists ≡ range_lists all.now) }
{
    let mut lists = AddressRangeLists::new(alloc);
    for within in all {
        push_ranges(&mut lists, within.as_slice())?;
    }
    Ok(lists)
}

/// Appends the range lists of a function's instances.
fn push_ranges(
    lists: &mut AddressRangeLists,
    instances: &[InlinedSubroutine],
) -> Result<(), AllocError>
    ensures { OnOk result (lists.new ≡ lists.old ++ map (λ i. i.ranges) instances.now) }
{
    for instance in instances {
        lists.push(instance.ranges.copy()?)?;
    }
    Ok(())
}
