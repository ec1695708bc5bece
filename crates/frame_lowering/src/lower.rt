//! The function with its frame.

ghost use Rattle.std.specs.Prelude.{◌≡◌, ◌≤◌, ◌<◌, ◌+◌, length, IfOk, OnOk, IsErrOf};
ghost use Rattle.mir_func.specs.Limits.{MAX_BLOCKS, MAX_FRAME};
ghost use Rattle.mir_func.specs.Sound.{AllItems};
ghost use Rattle.mir_func.specs.SoundFrame.{HasPhysical};
ghost use Rattle.frame_rule.specs.Rule.{reach_of, framed_of};
ghost use Rattle.frame_lowering.specs.declared.lower.LowerError.TheVariants.{Memory};

use crate::blocks::framed_blocks;
use crate::frame::Frame;
use crate::places::slot_places;
use mir_func::framed::Framed;
use mir_func::func::Func;
use std::alloc::{AllocError, Global};
use thiserror::Error;

/// Why the frame of a function couldn't be lowered.
#[derive(Debug, Drop, Error)]
pub enum LowerError {
    /// Its frame would have more than 2,032 bytes, or an argument on the stack would end, or an address of an object
    /// lie, more than 2,032 above x2.
    #[error("the frame is too large")]
    FrameTooLarge,
    /// Memory ran out.
    #[error("out of memory")]
    Memory,
}

impl From<AllocError> for LowerError {
    ghost from_gives = { λ _ e. e ≡ Memory };

    fn from(_: AllocError) -> LowerError {
        LowerError::Memory
    }
}

/// The function with its frame (RISC-V ELF psABI, "Integer Calling Convention"). The error is `FrameTooLarge` exactly
/// if the frame would have more than 2,032 bytes, or if an argument on the stack would end, or an address of an object
/// lie, more than 2,032 above x2.
pub fn lower(alloc: Global, f: &Func) -> Result<Framed, LowerError>
    requires physical { AllItems (λ i. HasPhysical i.kind) f.now.blocks }
    ensures framed { IfOk result (λ g. g ≡ framed_of f.now) }
    ensures few { IfOk result (λ g. length g.blocks ≤ MAX_BLOCKS + 1) }
    ensures fits { OnOk result (reach_of f.now ≤ MAX_FRAME) }
    ensures too_large { IsErrOf result LowerError.FrameTooLarge → MAX_FRAME < reach_of f.now }
{
    let frame = Frame::new(alloc, f)?;
    Ok(Framed {
        name: f.name.copy()?,
        size: frame.size,
        offsets: slot_places(alloc, f.slots.as_slice())?,
        objects: f.objects.copy()?,
        blocks: framed_blocks(alloc, &frame, f.blocks.as_slice())?,
        saved: frame.saved,
    })
}
