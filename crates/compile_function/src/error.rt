//! Errors of compilation.

ghost use Rattle.std.specs.Prelude.{◌≡◌};
ghost use Rattle.compile_function.specs.Fault.{of_passes, of_section};
ghost use Rattle.compile_function.specs.declared.error.CompileError.TheVariants.{Memory};

use compile_passes::error::PassesError;
use dwarf_sections::sections::SectionError;
use std::alloc::AllocError;
use thiserror::Error;

/// Why a function, or a program, has no output.
#[derive(Debug, Drop, Error)]
pub enum CompileError {
    /// Linear scan leaves a virtual register in a function.
    #[error("no register for a virtual register")]
    NoRegister,
    /// A function's frame would have more than 2,032 bytes.
    #[error("a frame is too large")]
    FrameTooLarge,
    /// A section would have 2^31 bytes or more.
    #[error("a section is too large")]
    SectionTooLarge,
    /// Memory ran out.
    #[error("out of memory")]
    Memory,
}

impl From<AllocError> for CompileError {
    ghost from_gives = { λ _ e. e ≡ Memory };

    fn from(_: AllocError) -> CompileError {
        CompileError::Memory
    }
}

impl From<PassesError> for CompileError {
    ghost from_gives = { λ e c. c ≡ of_passes e };

    fn from(e: PassesError) -> CompileError {
        match e {
            PassesError::NoRegister => CompileError::NoRegister,
            PassesError::Memory => CompileError::Memory,
        }
    }
}

impl From<SectionError> for CompileError {
    ghost from_gives = { λ e c. c ≡ of_section e };

    fn from(e: SectionError) -> CompileError {
        match e {
            SectionError::TooLarge => CompileError::SectionTooLarge,
            SectionError::Memory => CompileError::Memory,
        }
    }
}
