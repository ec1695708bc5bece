//! The size limit of a section.

/// The limit on a section's bytes, exclusive.
pub const SECTION_LIMIT: usize = 1 << 31;
