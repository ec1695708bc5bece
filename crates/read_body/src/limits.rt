//! The limits of a function's body.

/// The greatest number of items.
pub const MAX_ITEMS: usize = 8_192;

/// The greatest number of variables and fragments of variables that have debug values.
pub const MAX_VARIABLES: usize = 1_024;

/// The greatest number of different debug instruction numbers.
pub const MAX_NUMBERS: usize = 4_096;

/// The greatest number of different constants, of instructions that set a register to one and of debug values.
pub const MAX_CONSTANTS: usize = 256;
