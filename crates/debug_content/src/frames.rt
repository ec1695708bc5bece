//! The pieces of `.debug_frame`.

ghost use Rattle.std.specs.Prelude.{◌≡◌, ◌<◌, ◌^◌, ◌++◌, length, All, OnOk, IfOk};
ghost use Rattle.dwarf_frame.specs.FirstFault.{HasSize};
ghost use Rattle.dwarf_frame.specs.Spelling.{spelling};
ghost use Rattle.dwarf_frame.specs.Table.{AreUndefined, IsDescription};
ghost use Rattle.debug_placement.specs.Frames;

use crate::fields::{Pieces, address_field, fixed, fixed_front, fixed_rest, offset_field};
use dwarf_frame::table::FrameDescription;
use dwarf_frame::write::{push_common, push_description};
use std::alloc::{AllocError, Global};

/// The bytes of a frame description entry before the offset of its CIE, and up to the end of the address behind that.
const BEFORE_COMMON: usize = 4;

const BEHIND_ADDRESS: usize = 16;

/// The pieces of the section of functions, in their order, with the registers whose values they may lose, by the
/// numbers of the symbols of the section itself and of the code's. The error is out of memory.
pub fn frame_pieces(
    alloc: Global,
    frame: u32,
    text: u32,
    undefined: &[u8],
    functions: &[FrameDescription],
) -> Result<Pieces, AllocError>
    requires undefined { AreUndefined undefined.now }
    requires functions { All IsDescription functions.now }
    requires size { length (spelling undefined.now functions.now) < 2 ^ 31 }
    ensures { IfOk result (λ pieces. pieces ≡ Frames.frame_pieces frame text undefined.now functions.now) }
{
    let mut pieces = Pieces::new(alloc);
    let mut common = Vec::new(alloc);
    push_common(alloc, &mut common, undefined)?;
    pieces.push(fixed(alloc, common.as_slice())?)?;
    for function in functions {
        push_pieces(alloc, &mut pieces, frame, text, function)?;
    }
    Ok(pieces)
}

/// Appends the pieces of a function.
fn push_pieces(
    alloc: Global,
    pieces: &mut Pieces,
    frame: u32,
    text: u32,
    function: &FrameDescription,
) -> Result<(), AllocError>
    requires content { IsDescription function.now }
    requires size { HasSize function.now }
    ensures { OnOk result (pieces.new ≡ pieces.old ++ Frames.description_pieces frame text function.now) }
{
    let mut bytes = Vec::new(alloc);
    push_description(alloc, &mut bytes, function)?;
    pieces.push(fixed_front(alloc, bytes.as_slice(), BEFORE_COMMON)?)?;
    pieces.push(offset_field(alloc, frame, 0)?)?;
    pieces.push(address_field(alloc, text, function.start)?)?;
    pieces.push(fixed_rest(alloc, bytes.as_slice(), BEHIND_ADDRESS)?)?;
    Ok(())
}
