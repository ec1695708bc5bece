//! Why a line has no tokens.

ghost use Rattle.std.specs.Prelude.{◌≡◌};
ghost use Rattle.read_lexer.specs.declared.fault.LexError.TheVariants.{Memory};

use std::alloc::AllocError;
use thiserror::Error;

/// Why a line has no tokens: its leftmost fault, as a byte index into the line, or want of memory.
#[derive(Debug, Drop, Error)]
pub enum LexError {
    /// The byte at this index begins no token.
    #[error("byte {0} begins no token")]
    BadByte(usize),
    /// The quote at this index isn't closed on the line.
    #[error("the quote at byte {0} is not closed")]
    UnclosedString(usize),
    /// There was no memory for the tokens.
    #[error("out of memory")]
    Memory,
}

impl From<AllocError> for LexError {
    ghost from_gives = { λ _ e. e ≡ Memory };

    fn from(_e: AllocError) -> LexError {
        LexError::Memory
    }
}
