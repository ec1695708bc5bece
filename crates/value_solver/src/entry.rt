//! The live-in values of a block.

use base_list::List;

/// Class numbers, one for each tracked entity (LLVM: value numbers, `ValueIDNum`).
pub type Numbers = List<u32>;

/// The `given` bits: for each tracked entity, whether it has a token on every path.
pub type Bits = List<bool>;

/// The live-in values of a block (LLVM: the live-in values of InstrRefBasedLDV, MInLocs).
#[derive(Debug, Drop)]
pub struct BlockEntry {
    /// Whether some path leads to the block's start.
    pub reached: bool,
    /// The class of each tracked entity, in the order of their list; empty if the block is unreached.
    pub classes: Numbers,
    /// Whether each tracked entity has a token on every path, in the same order; empty if the block is unreached.
    pub given: Bits,
}

/// An entry for each block of a function with its frame, by the block's index: the first is the prologue's.
pub type BlockEntries = List<BlockEntry>;
