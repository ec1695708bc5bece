//! The error of the reader.

use std::fmt::Debug;
use thiserror::Error;

/// The error of the reader.
#[derive(Debug, Drop, Error)]
pub enum LineError {
    /// The bytes are no section that the writer writes. The first wrong field begins at this byte, counted from 0. The
    /// section's length is checked first, against the given bytes, and the header's length at the end of its tables;
    /// all other fields are checked in order.
    #[error("the line number table is wrong at byte {0}")]
    LineFault(usize),
    /// Memory ran out.
    #[error("out of memory")]
    Memory,
}
