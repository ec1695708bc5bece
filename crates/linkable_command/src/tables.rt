//! What the debug sections of an object have, and the linkage of its functions.

use base_list::List;
use dwarf_frame::table::FrameDescription;
use dwarf_line::table::LineTable;
use elf_object::object::Bytes;
use entry_placement::dwarf_entry_crate::tree::Tree;
use read_linkage::linkage::Linkages;

/// The call frame information of functions, in their order.
pub type FrameDescriptions = List<FrameDescription>;

/// The contents of debug sections, and the linkage of functions.
#[derive(Debug, Drop)]
pub struct DebugTables {
    /// The entries of `.debug_info`.
    pub entries: Tree,
    /// The rows of `.debug_line`.
    pub rows: LineTable,
    /// The functions of `.debug_frame`, if it is asked for.
    pub frames: Option<FrameDescriptions>,
    /// The bytes of `.debug_rnglists`.
    pub ranges: Bytes,
    /// The functions of which the source says another linkage than the usual one.
    pub linkages: Linkages,
}
