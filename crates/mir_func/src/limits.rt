//! The limits of functions.

/// How many blocks a function may have.
pub const MAX_BLOCKS: usize = 1_024;

/// How many frame slots and stack objects a function may have together.
pub const MAX_SLOTS: usize = 224;

/// The alignments that a stack object may have, in bytes.
pub const ALIGNMENTS: [u32; 5] = [1, 2, 4, 8, 16];

/// The longest part of a variable, in bytes.
pub const MAX_PART: u32 = 8;

/// The greatest end of a part, in bytes.
pub const MAX_PART_END: u32 = 8_192;
