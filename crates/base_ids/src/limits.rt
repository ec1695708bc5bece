//! The limits of numbers.

/// The greatest number that may name an entity in a text, and the greatest size of a stack object, in
/// bytes.
pub const MAX_NUMBER: u32 = 1_073_741_823;

/// What is added to the number of a fixed stack object, to tell it from a stack entry.
pub const FIXED: u32 = 1 << 31;
