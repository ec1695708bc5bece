//! A block's effect on the tokens of tracked entities, and its successors.

use base_list::List;
use dataflow::graph::Ways;
use rv64_instr::reg::Reg;

/// The source of an entity's token at a block's end. Entities are named by their indices.
#[derive(Clone, Copy, Debug, PartialEq, Eq)]
pub enum Source {
    /// The token that the entity with this index had at the block's start.
    Was(u32),
    /// A new token, defined in the register by the item with this index in the block.
    New(u32, Reg),
    /// No token.
    Nameless,
}

/// A change of an entity's token in a block.
#[derive(Clone, Copy, Debug, PartialEq, Eq)]
pub struct Change {
    /// The entity's index.
    pub thing: u32,
    /// The source of its token at the block's end.
    pub source: Source,
}

/// The changes of a block, the last of which counts for each entity. All other entities keep their tokens.
pub type Changes = List<Change>;

/// A block's transfer function for tokens, and its successors.
#[derive(Debug, Drop)]
pub struct Flow {
    /// The changes of tokens in the block.
    pub changes: Changes,
    /// The block's successors.
    pub ways: Ways,
}
