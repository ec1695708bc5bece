//! Why no program was read.

ghost use Rattle.std.specs.Prelude.{◌≡◌};
ghost use Rattle.read_program.specs.declared.error.ParseError.TheVariants.{Memory};

use read_refusal::first::Refusal;
use std::alloc::AllocError;
use thiserror::Error;

/// Why no program was read.
#[derive(Debug, Drop, Error)]
pub enum ParseError {
    /// A line is refused: the first one, for the cause with the lowest number.
    #[error("line {} is refused: {}", .0.line, .0.kind.name())]
    Refused(Refusal),
    /// Memory ran out.
    #[error("out of memory")]
    Memory,
}

impl From<AllocError> for ParseError {
    ghost from_gives = { λ _ e. e ≡ Memory };

    fn from(_e: AllocError) -> ParseError {
        ParseError::Memory
    }
}
