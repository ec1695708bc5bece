//! The source positions of the words of a function.

ghost use Rattle.std.specs.Prelude.{◌≡◌, map, List, IfOk};
ghost use Rattle.mir_func.specs.declared.block.Block.{Block};
ghost use Rattle.mir_func.specs.Positions.{position_of};
ghost use Rattle.dwarf_line_table.specs.SourcePosition.{scope_line, loc_of};
ghost use Rattle.dwarf_line_table.specs.steps.DebugLocations.{AreDebugLocations};
ghost use Rattle.prologue_rows.specs.Words.{at_line, word_of, words_of};

use base_ids::function_ids::BlockIndex;
use base_ids::metadata::NodeId;
use base_list::List;
use dwarf_line_table::debug_locations::DebugLocations;
use dwarf_line_table::scope_line::{ScopeLine, scope_line};
use dwarf_line_table::source_and_code::SourceAndCode;
use emit_code::code::EncodedInstruction;
use read_metadata::metadata::Metadata;
use std::alloc::{AllocError, Global};

/// An encoded instruction with its source position.
#[derive(Clone, Copy, Debug, PartialEq, Eq)]
pub struct SourceWord {
    /// The address of its first byte.
    pub address: u64,
    /// The index of its block in the function with its frame: 0 is the prologue.
    pub block: BlockIndex,
    /// Its line, from 1; 0 if it has none.
    pub line: u32,
    /// Its column, from 1; 0 if it has none.
    pub column: u32,
    /// The node of its scope.
    pub scope: Option<NodeId>,
}

/// Encoded instructions with their source positions, in the order of their addresses.
pub type SourceWords = List<SourceWord>;

/// The words of a function, each with the source position of its origin. The error is out of memory.
pub fn words_of(
    alloc: Global,
    meta: &Metadata,
    function: &SourceAndCode,
) -> Result<SourceWords, AllocError>
    ensures { IfOk result (λ words. words ≡ words_of meta.now function.now) }
{
    let source = function.source;
    let code = function.code;
    let places = DebugLocations::new(alloc, source.blocks.as_slice())?;
    words(alloc, meta, &places, code.entries.as_slice())
}

/// The words of entries.
fn words(
    alloc: Global,
    meta: &Metadata,
    places: &DebugLocations,
    entries: &[EncodedInstruction],
) -> Result<SourceWords, AllocError>
    ensures { (blocks : List Block) → AreDebugLocations blocks places.now →
        IfOk result (λ words. words ≡ map (word_of meta.now blocks) entries.now) }
{
    let mut words = SourceWords::new(alloc);
    for entry in entries {
        let ScopeLine {
            line,
            column,
            scope,
        } = line_at(meta, places, entry);
        words.push(SourceWord {
            address: entry.address,
            block: entry.point.block,
            line,
            column,
            scope,
        })?;
    }
    Ok(words)
}

/// The source position of an entry.
fn line_at(meta: &Metadata, places: &DebugLocations, entry: &EncodedInstruction) -> ScopeLine
    ensures { (blocks : List Block) → AreDebugLocations blocks places.now →
        result ≡ scope_line meta.now (loc_of blocks (position_of entry.now.origin)) }
{
    scope_line(meta, &places.loc(&entry.origin))
}

/// A line at an address of a block.
pub fn at_line(address: u64, block: BlockIndex, line: &ScopeLine) -> SourceWord
    ensures { result ≡ at_line address block line.now }
{
    SourceWord {
        address,
        block,
        line: line.line,
        column: line.column,
        scope: line.scope,
    }
}
