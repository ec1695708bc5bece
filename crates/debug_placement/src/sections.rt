//! The sections to which debugging information entries refer.

/// The numbers of the symbols of sections in the symbol table, from 1.
#[derive(Clone, Copy, Debug, PartialEq, Eq)]
pub struct UnitSections {
    /// `.text`.
    pub text: u32,
    /// `.debug_abbrev`.
    pub abbreviations: u32,
    /// `.debug_line`.
    pub lines: u32,
    /// `.debug_loclists`.
    pub lists: u32,
    /// `.debug_rnglists`.
    pub ranges: u32,
}
