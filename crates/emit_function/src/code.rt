//! The machine code of a function.

ghost use Rattle.std.specs.Prelude.{◌≡◌, ◌<◌, ◌≤◌, ◌%◌, IfOk, OnOk, IsErrOf};
ghost use Rattle.mir_func.specs.Limits.{MAX_FRAME};
ghost use Rattle.mir_func.specs.Sound.{AllItems};
ghost use Rattle.mir_func.specs.SoundFrame.{HasPhysical};
ghost use Rattle.frame_lowering.specs.frame_rule.Rule.{reach_of, framed_of};
ghost use Rattle.emit_code.specs.Counts.{MAX_WORDS, MAX_BASE, count_of};
ghost use Rattle.emit_code.specs.Laid.{IsCodeOf};
ghost use Rattle.emit_function.specs.declared.code.CodeError.TheVariants.{Memory};

use crate::count::are_few;
use emit_code::code::Code;
use emit_code::layout::lay_out;
use frame_lowering::lower::{LowerError, lower};
use frame_lowering::physical::is_physical;
use mir_func::func::Func;
use std::alloc::{AllocError, Global};
use thiserror::Error;

/// The error of a function without machine code.
#[derive(Debug, Drop, Error)]
pub enum CodeError {
    /// It uses virtual registers.
    #[error("virtual registers")]
    Virtual,
    /// Its frame would have more than 2,032 bytes, or an argument on the stack would end more than 2,032 above x2.
    #[error("the frame is too large")]
    FrameTooLarge,
    /// It may have 262,144 words or more: conditional branches and calls count twice, all other items once.
    #[error("too many words")]
    TooLong,
    /// Memory ran out.
    #[error("out of memory")]
    Memory,
}

impl From<AllocError> for CodeError {
    ghost from_gives = { λ _ e. e ≡ Memory };

    fn from(_: AllocError) -> CodeError {
        CodeError::Memory
    }
}

/// The machine code of a function with its frame, at a first address.
pub fn code_of(alloc: Global, f: &Func, base: u64) -> Result<Code, CodeError>
    requires aligned { base % 4 ≡ 0 }
    requires low { base < MAX_BASE }
    ensures laid { IfOk result (IsCodeOf (framed_of f.now) base) }
    ensures fits { OnOk result (reach_of f.now ≤ MAX_FRAME) }
    ensures few { OnOk result (count_of (framed_of f.now).blocks < MAX_WORDS) }
    ensures not_physical { IsErrOf result CodeError.Virtual → AllItems (λ i. HasPhysical i.kind) f.now.blocks → ⊥ }
    ensures too_large { IsErrOf result CodeError.FrameTooLarge → MAX_FRAME < reach_of f.now }
    ensures too_long { IsErrOf result CodeError.TooLong → MAX_WORDS ≤ count_of (framed_of f.now).blocks }
{
    if !is_physical(f) {
        return Err(CodeError::Virtual);
    }
    let framed = match lower(alloc, f) {
        Ok(framed) => framed,
        Err(LowerError::FrameTooLarge) => return Err(CodeError::FrameTooLarge),
        Err(LowerError::Memory) => return Err(CodeError::Memory),
    };
    if !are_few(framed.blocks.as_slice()) {
        return Err(CodeError::TooLong);
    }
    Ok(lay_out(alloc, framed, base)?)
}
