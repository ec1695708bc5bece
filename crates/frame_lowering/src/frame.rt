//! The frame of a function.

ghost use Rattle.std.specs.Prelude.{◌<◌, IfOk, IsErrOf};
ghost use Rattle.mir_func.specs.Limits.{MAX_FRAME};
ghost use Rattle.frame_rule.specs.Rule.{reach_of};
ghost use Rattle.frame_lowering.specs.steps.Framing.{IsFrameOf};

use crate::addresses::blocks_end;
use crate::lower::LowerError;
use crate::places::{DOUBLEWORD, saved_places};
use crate::saving::saved_registers;
use crate::sizes::{MAX_FRAME, own_size, reach, size};
use crate::slots::SlotOffsets;
use mir_func::framed::Saved;
use mir_func::func::Func;
use std::alloc::Global;

/// The frame of a function (LLVM: `MachineFrameInfo`).
#[derive(Drop)]
pub struct Frame {
    /// Its size in bytes.
    pub size: u32,
    /// The offsets of slots.
    pub slots: SlotOffsets,
    /// The save slots of registers.
    pub saved: Saved,
}

impl Frame {
    /// Computes the frame of this function. The error is `FrameTooLarge` exactly if it has more than 2,032 bytes, or if
    /// an argument on the stack ends, or an address of an object lies, more than 2,032 bytes above x2.
    pub fn new(alloc: Global, f: &Func) -> Result<Frame, LowerError>
        ensures made { IfOk result (IsFrameOf f.now) }
        ensures too_large { IsErrOf result LowerError.FrameTooLarge → MAX_FRAME < reach_of f.now }
    {
        let slots = f.slots.as_slice();
        let registers = saved_registers(alloc, f.blocks.as_slice())?;
        let objects = f.objects.as_slice();
        let count = slots.len() + registers.len();
        let end = reach(count, objects);
        let reach = blocks_end(own_size(count), objects, end, f.blocks.as_slice());
        if MAX_FRAME < reach {
            return Err(LowerError::FrameTooLarge);
        }
        let size = size(count, objects);
        Ok(Frame {
            size: size as u32,
            slots: SlotOffsets::new(alloc, slots)?,
            saved: saved_places(alloc, DOUBLEWORD * slots.len() as u32, registers.as_slice())?,
        })
    }
}
