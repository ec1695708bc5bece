//! Positions of items, and their origins.

ghost use Rattle.std.specs.Prelude.{◌≡◌};
ghost use Rattle.mir_func.specs.Positions.{position_of};

use rv64_instr::base_ids_crate::function_ids::{BlockId, BlockIndex};

/// A position in a function as it was read: the number N of a block `bb.N`, and the index of an item in it from 0.
/// The index past a block's last item is its silent position, from which control goes on to the next block in
/// the text.
#[derive(Clone, Copy, Debug, PartialEq, Eq, PartialOrd, Ord)]
pub struct Pos {
    /// The block's number.
    pub block: BlockId,
    /// The index of the item.
    pub item: u32,
}

/// The origin of an item of a function in the source.
#[derive(Clone, Copy, Debug, PartialEq, Eq)]
pub enum Origin {
    /// It is the source's item at this position, perhaps rewritten.
    Kept(Pos),
    /// It was added before this position.
    Before(Pos),
}

/// The position of the source from which an item comes, or before which it was added.
pub fn position_of(origin: Origin) -> Pos
    ensures { result ≡ position_of origin }
{
    match origin {
        Origin::Kept(p) | Origin::Before(p) => p,
    }
}

/// A position in a function with its frame: the index of a block, where 0 is the prologue, and the index of an
/// item in it.
#[derive(Clone, Copy, Debug, PartialEq, Eq, PartialOrd, Ord)]
pub struct ProgramPoint {
    /// The block's index in the function.
    pub block: BlockIndex,
    /// The index of the item.
    pub item: u32,
}
