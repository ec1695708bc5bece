//! The scopes of a function.

ghost use Rattle.std.specs.Prelude.{◌≡◌, IfOk};
ghost use Rattle.std.specs.Ordering.{nat_cmp};
ghost use Rattle.std.specs.BTreeSet.{contains};
ghost use Rattle.scope_ranges.specs.Words.{scope_of_loc};
ghost use Rattle.scope_ranges.specs.Scopes.{AreScopes};

use crate::scope::Scopes;
use crate::table::ScopeTable;
use dwarf_line_table::debug_locations::DebugLocations;
use dwarf_line_table::scope_line::scope_line;
use dwarf_line_table::source_and_code::SourceAndCode;
use dwarf_rnglists::range::AddressRange;
use mir_func::location::Loc;
use read_item::debug::inlined_at;
use read_metadata::metadata::Metadata;
use scope_ways::scope::LexicalScope;
use scope_ways::way::way;
use std::alloc::{AllocError, Global};
use std::collections::BTreeSet;

/// The scopes of a function that have code. The set has the nodes that are `DILexicalBlockFile`. It takes time in
/// proportion to the nodes on the ways of the instructions, times a logarithm. The error is out of memory.
pub fn scopes(
    alloc: Global,
    function: &SourceAndCode,
    meta: &Metadata,
    files: &BTreeSet<u32>,
) -> Result<Scopes, AllocError>
    ensures { IfOk result (AreScopes meta.now (contains nat_cmp files.now) function.now) }
{
    let code = function.code;
    let source = function.source;
    let locs = DebugLocations::new(alloc, source.blocks.as_slice())?;
    let mut table = ScopeTable::new(alloc);
    for entry in code.entries.as_slice() {
        let loc = locs.loc(&entry.origin);
        let scope = scope_of_loc(meta, &loc);
        let hi = entry.address + entry.size as u64;
        let addresses = AddressRange {
            lo: entry.address,
            hi,
        };
        let way = way(alloc, meta, &scope)?;
        drop(table.enter(alloc, meta, files, way, &addresses)?);
    }
    Ok(Scopes::from(table.scopes))
}

/// The scope of a debug location.
fn scope_of_loc(meta: &Metadata, loc: &Loc) -> LexicalScope
    ensures { result ≡ scope_of_loc meta.now loc.now }
{
    LexicalScope {
        node: scope_line(meta, loc).scope,
        inlined_at: inlined_at(meta, *loc),
    }
}
