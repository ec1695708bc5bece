//! The inlined subroutines of a function.

ghost use Rattle.std.specs.Prelude.{IfOk};
ghost use Rattle.inline_instances.specs.Instances.{AreInstances};

use crate::instance::InlinedCode;
use crate::ranges::OpenRanges;
use crate::table::InstanceTable;
use base_list::List;
use dwarf_line_table::debug_locations::DebugLocations;
use dwarf_line_table::source_and_code::SourceAndCode;
use read_metadata::metadata::Metadata;
use std::alloc::{AllocError, Global};

/// The inlined subroutines of a function (DWARF 5 section 3.3.8.2). It takes time in proportion to the instructions, the
/// nodes that they lead to and the ranges, times a logarithm. The error is out of memory.
pub fn inlined_code(
    alloc: Global,
    function: &SourceAndCode,
    meta: &Metadata,
) -> Result<InlinedCode, AllocError>
    ensures { IfOk result (AreInstances meta.now function.now) }
{
    let code = function.code;
    let source = function.source;
    let places = DebugLocations::new(alloc, source.blocks.as_slice())?;
    let mut table = InstanceTable::new(alloc);
    let mut ranges = OpenRanges::new(alloc);
    let mut inside = None;
    for entry in code.entries.as_slice() {
        let loc = places.loc(&entry.origin);
        let reached = table.innermost(alloc, meta, &loc)?;
        ranges.grow(alloc, table.instances.len())?;
        ranges.shift(table.instances.as_slice(), inside, reached, entry.address)?;
        inside = reached;
    }
    let end = code.base + 4 * code.words.len() as u64;
    ranges.shift(table.instances.as_slice(), inside, None, end)?;
    Ok(InlinedCode {
        instances: List::from(table.instances),
        ranges: List::from(ranges.ranges),
    })
}
