//! Why no program was read from an input.

ghost use Rattle.std.specs.Prelude.{◌≡◌};
ghost use Rattle.read_input.specs.declared.error.InputError.TheVariants.{Failed, Memory};

use base_io::fault;
use read_refusal::first::Refusal;
use std::alloc::AllocError;
use thiserror::Error;

/// Why no program was read from an input.
#[derive(Debug, Drop, Error)]
pub enum InputError {
    /// A read failed.
    #[error("reading failed")]
    Failed,
    /// The input has more bytes than the limit.
    #[error("the input is too long")]
    TooLong,
    /// A line is refused: the first one, for the cause with the lowest number.
    #[error("line {} is refused: {}", .0.line, .0.kind.name())]
    Refused(Refusal),
    /// Memory ran out.
    #[error("out of memory")]
    Memory,
}

impl From<fault::Failed> for InputError {
    ghost from_gives = { λ _ e. e ≡ Failed };

    fn from(_: fault::Failed) -> InputError {
        InputError::Failed
    }
}

impl From<AllocError> for InputError {
    ghost from_gives = { λ _ e. e ≡ Memory };

    fn from(_: AllocError) -> InputError {
        InputError::Memory
    }
}
