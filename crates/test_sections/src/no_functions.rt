//! The sections of a program without functions, which no text can have.

use base_list::List;
use dwarf_line_table::line_table::line_table;
use dwarf_unit::unit::make_unit;
use read_metadata::metadata::{Metadata, read_meta};
use std::alloc::Global;
use std::test::Fail;

/// Whether the unit of no functions has no entries.
fn is_empty_unit(alloc: Global, meta: &Metadata) -> Result<bool, Fail> {
    let unit = make_unit(alloc, &[], meta, 0)?;
    Ok(unit.types.is_empty() && unit.functions.is_empty())
}

/// Whether the line table of no functions has no rows.
fn is_empty_table(alloc: Global, meta: &Metadata) -> Result<bool, Fail> {
    let table = line_table(alloc, &[], meta)?;
    Ok(table.dirs.len() == 1 && table.files.len() == 2 && table.sequences.is_empty())
}

#[test]
fn no_functions_make_an_empty_unit(rt: HostRuntime) -> Result<(), Fail> {
    let meta = read_meta(rt.alloc(), &List::new(rt.alloc()))?;
    assert!(rt; is_empty_unit(rt.alloc(), &meta)?);
    assert!(rt; is_empty_table(rt.alloc(), &meta)?);
    Ok(())
}
