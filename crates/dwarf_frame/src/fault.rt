//! The error of the reader.

/// The error of the reader: the bytes aren't a section that the writer writes. The first wrong field begins at this
/// byte, counted from 0.
#[derive(Clone, Copy, Debug, PartialEq, Eq)]
pub struct FrameFault {
    /// The index of the byte.
    pub at: usize,
}
