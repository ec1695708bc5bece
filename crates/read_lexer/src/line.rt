//! Lines of a text.

use base_list::List;

/// Bytes of a text.
pub type Bytes = List<u8>;

/// A line of a text.
#[derive(Debug, Drop)]
pub struct Line {
    /// Its number in the text, counted from 1.
    pub number: u32,
    /// Its bytes without a line ending.
    pub text: Bytes,
}

/// Lines of a text, in its order.
pub type Lines = List<Line>;
