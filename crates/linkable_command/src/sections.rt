//! The sections of an object that a linker places.

ghost use Rattle.std.specs.Prelude.{◌≡◌, ◌<◌, ◌≤◌, ◌^◌, ◌++◌, ◌∷◌, ◌↔◌, [], codes, length, IsNone, All, IfSome, OnOk, IfOk};
ghost use Rattle.dwarf_frame.specs.Spelling.{spelling as frame_spelling};
ghost use Rattle.dwarf_frame.specs.Table.{IsDescription};
ghost use Rattle.linkable_command.specs.Linkable;
ghost use Rattle.dwarf_line.specs.Table.{HasNames, IsSequence};
ghost use Rattle.debug_placement.specs.Frames;
ghost use Rattle.prologue_lines.specs.Pieces;
ghost use Rattle.prologue_lines.specs.Spelling.{spelling as rows_spelling};
ghost use Rattle.entry_placement.specs.Pieces.{unit_pieces};
ghost use Rattle.entry_placement.specs.dwarf_entry.Declarations.{abbreviation_section};
ghost use Rattle.entry_placement.specs.dwarf_entry.Entries.{spelling as entries_spelling, RefersWithin};
ghost use Rattle.linkable_command.specs.Linkable.{content_of, entry_bytes, frame_sections, plain_content};
ghost use Rattle.linkable_command.specs.Linkable.{sections_by, unit_sections, AreWritable, LOST};

use crate::tables::{DebugTables, FrameDescriptions};
use debug_content::frames::frame_pieces;
use dwarf_frame::table::FrameDescription;
use dwarf_line::table::LineTable;
use elf_content::content::{Content, Relocations, make_content};
use elf_content::piece::Piece;
use elf_linkable::section::{LinkableSection, LinkableSections};
use elf_object::constants::{SHF_ALLOC, SHF_EXECINSTR};
use elf_object::object::{Bytes, Name};
use entry_placement::content::{SectionSymbols, entry_content};
use entry_placement::dwarf_entry_crate::abbreviation::{
    Abbreviation, abbreviations_of, write_abbreviations,
};
use entry_placement::dwarf_entry_crate::size::entries_size;
use entry_placement::dwarf_entry_crate::tree::TreeItem;
use prologue_lines::section::line_pieces;
use std::alloc::{AllocError, Global};

static TEXT_NAME: [u8; 5] = *b".text";

static ABBREV: [u8; 13] = *b".debug_abbrev";

static INFO: [u8; 11] = *b".debug_info";

static LINE: [u8; 11] = *b".debug_line";

static LOCLISTS: [u8; 15] = *b".debug_loclists";

static FRAME_NAME: [u8; 12] = *b".debug_frame";

static RNGLISTS: [u8; 15] = *b".debug_rnglists";

/// The index of `.text`.
const TEXT: u32 = 1;
/// The index of `.debug_abbrev`.
const ABBREVIATIONS: u32 = 2;
/// The index of `.debug_line`.
const ROWS: u32 = 4;
/// The index of `.debug_loclists`.
const LISTS: u32 = 5;
/// The index of `.debug_frame`.
const FRAME: u32 = 6;

/// The registers whose values a function may lose.
pub static LOST_REGISTERS: [u8; 15] = [5, 6, 7, 10, 11, 12, 13, 14, 15, 16, 17, 28, 29, 30, 31];

/// The number of sections.
pub fn section_count(frames: &Option<FrameDescriptions>) -> u32
    ensures { result ≡ Linkable.section_count frames.now }
{
    match frames {
        None => 6,
        Some(_) => 7,
    }
}

/// The size of the section of a tree of entries in bytes, and `None` if and only if it is 2^31 or more. The error is
/// out of memory.
pub fn entry_size(alloc: Global, entries: &[TreeItem]) -> Result<Option<u32>, AllocError>
    ensures { IfOk result (λ size. IsNone size ↔ (2 ^ 31 ≤ length (entry_bytes entries.now))) }
{
    let abbreviations = abbreviations_of(alloc, entries)?;
    Ok(entries_size(abbreviations.as_slice(), entries))
}

/// The sections of machine code with its relocations, and of debugging information.
pub fn sections(
    alloc: Global,
    relocations: Relocations,
    text: Bytes,
    lists: Bytes,
    t: &DebugTables,
) -> Result<LinkableSections, AllocError>
    requires { AreWritable t.now }
    ensures { IfOk result (λ sections. sections ≡ sections_by relocations text lists t.now) }
{
    let mut sections = LinkableSections::new(alloc);
    sections.push(text_section(alloc, text, relocations)?)?;
    push_entries(alloc, &mut sections, t)?;
    sections.push(row_section(alloc, &t.rows)?)?;
    sections.push(plain_section(alloc, &LOCLISTS, lists)?)?;
    push_frame(alloc, &mut sections, &t.frames)?;
    sections.push(range_section(alloc, t.ranges.as_slice())?)?;
    Ok(sections)
}

/// Appends the sections of a tree of entries and, before it, of its abbreviations.
fn push_entries(
    alloc: Global,
    sections: &mut LinkableSections,
    t: &DebugTables,
) -> Result<(), AllocError>
    requires { AreWritable t.now }
    ensures { OnOk result (sections.new
        ≡ sections.old ++ Linkable.declaration_section t.now ∷ Linkable.entry_section t.now ∷ []) }
{
    let entries = t.entries.as_slice();
    let abbreviations = abbreviations_of(alloc, entries)?;
    let declared = abbreviations.as_slice();
    sections.push(declaration_section(alloc, declared)?)?;
    sections.push(entry_section(alloc, &t.frames, declared, entries)?)?;
    Ok(())
}

/// The section of abbreviations.
fn declaration_section(
    alloc: Global,
    abbreviations: &[Abbreviation],
) -> Result<LinkableSection, AllocError>
    ensures { IfOk result (λ s. s ≡ Linkable.debug_section (codes ".debug_abbrev")
        (plain_content (abbreviation_section abbreviations.now))) }
{
    let bytes = write_abbreviations(alloc, abbreviations)?;
    plain_section(alloc, &ABBREV, bytes)
}

/// The section of a tree of entries.
fn entry_section(
    alloc: Global,
    frames: &Option<FrameDescriptions>,
    abbreviations: &[Abbreviation],
    entries: &[TreeItem],
) -> Result<LinkableSection, AllocError>
    requires references { RefersWithin entries.now }
    requires size { length (entries_spelling abbreviations.now entries.now) < 2 ^ 31 }
    ensures { IfOk result (λ s. s ≡ Linkable.debug_section (codes ".debug_info")
        (content_of (unit_pieces (unit_sections frames.now) abbreviations.now entries.now))) }
{
    let numbers = SectionSymbols {
        text: TEXT,
        abbreviations: ABBREVIATIONS,
        lines: ROWS,
        location_lists: LISTS,
        range_lists: section_count(frames),
    };
    let content = entry_content(alloc, &numbers, abbreviations, entries)?;
    debug_section(alloc, &INFO, content)
}

/// The section of range lists.
fn range_section(alloc: Global, ranges: &[u8]) -> Result<LinkableSection, AllocError>
    ensures { IfOk result (λ s. s ≡ Linkable.debug_section (codes ".debug_rnglists") (plain_content ranges.now)) }
{
    let bytes = Bytes::from_slice(alloc, ranges)?;
    plain_section(alloc, &RNGLISTS, bytes)
}

/// The section of rows.
fn row_section(alloc: Global, rows: &LineTable) -> Result<LinkableSection, AllocError>
    requires names { HasNames rows.now }
    requires sequences { All IsSequence rows.now.sequences }
    requires size { length (rows_spelling rows.now) < 2 ^ 31 }
    ensures { IfOk result (λ s. s
        ≡ Linkable.debug_section (codes ".debug_line") (content_of (Pieces.line_pieces Linkable.TEXT rows.now))) }
{
    let pieces = line_pieces(alloc, TEXT, rows)?;
    piece_section(alloc, &LINE, pieces.as_slice())
}

/// Appends the section of call frame information, if it is asked for.
fn push_frame(
    alloc: Global,
    sections: &mut LinkableSections,
    frames: &Option<FrameDescriptions>,
) -> Result<(), AllocError>
    requires functions { IfSome frames.now (All IsDescription) }
    requires size { IfSome frames.now (λ functions. length (frame_spelling LOST functions) < 2 ^ 31) }
    ensures { OnOk result (sections.new ≡ sections.old ++ frame_sections frames.now) }
{
    match frames {
        None => Ok(()),
        Some(functions) => sections.push(frame_section(alloc, functions.as_slice())?),
    }
}

/// The section of call frame information.
fn frame_section(
    alloc: Global,
    functions: &[FrameDescription],
) -> Result<LinkableSection, AllocError>
    requires functions { All IsDescription functions.now }
    requires size { length (frame_spelling LOST functions.now) < 2 ^ 31 }
    ensures { IfOk result (λ s. s ≡ Linkable.debug_section (codes ".debug_frame")
        (content_of (Frames.frame_pieces Linkable.FRAME Linkable.TEXT LOST functions.now))) }
{
    let pieces = frame_pieces(alloc, FRAME, TEXT, &LOST_REGISTERS, functions)?;
    piece_section(alloc, &FRAME_NAME, pieces.as_slice())
}

/// The section of machine code.
fn text_section(
    alloc: Global,
    bytes: Bytes,
    relocations: Relocations,
) -> Result<LinkableSection, AllocError>
    ensures { IfOk result (λ s. s ≡ Linkable.text_section bytes relocations) }
{
    Ok(LinkableSection {
        name: Name::from_slice(alloc, &TEXT_NAME)?,
        flags: SHF_ALLOC + SHF_EXECINSTR,
        alignment: 4,
        content: Content { bytes, relocations },
    })
}

/// A section of debugging information of pieces.
fn piece_section(
    alloc: Global,
    name: &[u8],
    pieces: &[Piece],
) -> Result<LinkableSection, AllocError>
    ensures { IfOk result (λ s. s ≡ Linkable.debug_section name.now (content_of pieces.now)) }
{
    let content = make_content(alloc, pieces)?;
    debug_section(alloc, name, content)
}

/// A section of debugging information that no relocation changes.
fn plain_section(alloc: Global, name: &[u8], bytes: Bytes) -> Result<LinkableSection, AllocError>
    ensures { IfOk result (λ s. s ≡ Linkable.debug_section name.now (plain_content bytes)) }
{
    let content = Content {
        bytes,
        relocations: Relocations::new(alloc),
    };
    debug_section(alloc, name, content)
}

/// A section of debugging information.
fn debug_section(
    alloc: Global,
    name: &[u8],
    content: Content,
) -> Result<LinkableSection, AllocError>
    ensures { IfOk result (λ s. s ≡ Linkable.debug_section name.now content) }
{
    Ok(LinkableSection {
        name: Name::from_slice(alloc, name)?,
        flags: 0,
        alignment: 1,
        content,
    })
}
