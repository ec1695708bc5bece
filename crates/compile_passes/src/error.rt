//! Errors of passes.

ghost use Rattle.std.specs.Prelude.{◌≡◌};
ghost use Rattle.compile_passes.specs.declared.error.PassesError.TheVariants.{Memory};

use std::alloc::AllocError;
use thiserror::Error;

/// Why passes make nothing of a function.
#[derive(Debug, Drop, Error)]
pub enum PassesError {
    /// Linear scan leaves a virtual register.
    #[error("no register for a virtual register")]
    NoRegister,
    /// Memory ran out.
    #[error("out of memory")]
    Memory,
}

impl From<AllocError> for PassesError {
    ghost from_gives = { λ _ e. e ≡ Memory };

    fn from(_: AllocError) -> PassesError {
        PassesError::Memory
    }
}
