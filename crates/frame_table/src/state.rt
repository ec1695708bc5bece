//! The frame's state at a point.

ghost use Rattle.std.specs.Prelude.{◌≡◌, ◌&&◌, nat_eq, drop};
ghost use Rattle.mir_func.specs.Graph.{fetch_in, is_return};
ghost use Rattle.frame_proof.specs.Stands.{is_as_found, frame_state};
ghost use Rattle.frame_table.specs.Table.{position_of};

use mir_func::framed::Framed;
use mir_func::position::ProgramPoint;

/// The state of a frame.
#[derive(Clone, Copy, Debug, PartialEq, Eq)]
pub(crate) struct FrameState {
    /// By how many bytes x2 is lowered.
    pub lowered: u32,
    /// Whether registers are saved.
    pub saved: bool,
}

/// The state at a point of a function that saves registers or doesn't.
pub(crate) fn state_at(framed: &Framed, saves: bool, point: &ProgramPoint) -> FrameState
    ensures lowered { result.lowered ≡ (frame_state framed.now (position_of point.now)).lowered }
    ensures saved { result.saved ≡ ((frame_state framed.now (position_of point.now)).saved && saves) }
{
    if is_as_found(framed, point) {
        FrameState {
            lowered: 0,
            saved: false,
        }
    } else {
        FrameState {
            lowered: framed.size,
            saved: point.block.number() != 0 && saves,
        }
    }
}

/// Whether all is as at the function's entry.
fn is_as_found(framed: &Framed, point: &ProgramPoint) -> bool
    ensures { result ≡ is_as_found framed.now (position_of point.now) }
{
    framed.size == 0 || is_entry(point) || is_return(framed, point)
}

/// Whether a point is the first of the prologue.
fn is_entry(point: &ProgramPoint) -> bool
    ensures { result ≡ (nat_eq point.now.block 0 && nat_eq point.now.item 0) }
{
    point.block.number() == 0 && point.item == 0
}

/// Whether the item at a point leads back to the caller.
fn is_return(framed: &Framed, point: &ProgramPoint) -> bool
    ensures { result ≡ is_return (fetch_in (drop point.now.block framed.now.blocks) point.now.item) }
{
    let blocks = framed.blocks.as_slice();
    match blocks.get(point.block.number() as usize) {
        Some(block) => match block.items.as_slice().get(point.item as usize) {
            Some(item) => item.kind.leads_back(),
            None => false,
        },
        None => false,
    }
}
