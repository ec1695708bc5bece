//! The one fault of reading and writing.

use thiserror::Error;

/// A call of a source or a sink failed. The cause isn't reported.
#[derive(Clone, Copy, Debug, PartialEq, Eq, Error)]
#[error("reading or writing failed")]
pub struct Failed;
