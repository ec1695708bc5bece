//! The successors of a block.

ghost use Rattle.std.specs.Prelude.{◌≡◌, ◌↔◌, ℕ, ◌<◌, ◌∷◌, Bool, Option, length, slice_index, slice_get, Contains};
ghost use Rattle.mir_func.specs.Sound.{ids_of, IsJumpAtMost, EndsWell};
ghost use Rattle.mir_func.specs.declared.debug_substitution.OperandPair.{OperandPair};
ghost use Rattle.mir_func.specs.Graph.{program_of};
ghost use Rattle.mir_func.specs.Successors.{numbers_of, GoesTo, ways};

use crate::block::Block;
use crate::exit::Exit;
use crate::func::Func;
use crate::item::Item;
use rv64_instr::base_ids_crate::function_ids::BlockId;

/// The numbers of a block's successors. Two may be the same.
#[derive(Clone, Copy, Debug, PartialEq, Eq)]
pub enum Successors {
    /// None: control leaves the function.
    Nowhere,
    /// One.
    One(BlockId),
    /// The target of a conditional branch, and the block to which control goes if it isn't taken.
    Two(BlockId, BlockId),
}

impl Func {
    /// The numbers of the successors of the block of this index, whatever the data. It takes no memory.
    pub fn successors(&self, block: usize) -> Successors
        requires { block < length self.now.blocks }
        ensures { (sees_pointer : Bool) (resolve : OperandPair → Option OperandPair) (n : ℕ) →
            Contains (numbers_of result) n
            ↔ GoesTo (program_of sees_pointer self.now.blocks resolve) (slice_index (ids_of self.now.blocks) block) n }
    {
        let blocks = self.blocks.as_slice();
        let next = id_at(blocks, block + 1);
        successors_of(blocks[block].items.as_slice(), next)
    }
}

/// The number of the block of this index, if there is one.
pub fn id_at(blocks: &[Block], index: usize) -> Option<BlockId>
    ensures { result ≡ slice_get (ids_of blocks.now) index }
{
    match blocks.get(index) {
        Some(b) => Some(b.id),
        None => None,
    }
}

/// The successors of a block of these items, if the block after it has this number.
fn successors_of(items: &[Item], next: Option<BlockId>) -> Successors
    requires { EndsWell items.now }
    ensures { numbers_of result ≡ ways items.now next }
{
    let mut rest = items;
    while let Some((i, tail)) = rest.split_first() {
        match i.kind.exit() {
            Exit::Onward => rest = tail,
            Exit::Perhaps(n) => return after_branch(n, tail, next),
            Exit::Always(n) => return Successors::One(n),
            Exit::Final => return Successors::Nowhere,
        }
    }
    match next {
        Some(n) => Successors::One(n),
        None => Successors::Nowhere,
    }
}

/// The successors from a conditional branch to a block on, with these items below it.
fn after_branch(target: BlockId, tail: &[Item], next: Option<BlockId>) -> Successors
    requires { IsJumpAtMost tail.now }
    ensures { numbers_of result ≡ target ∷ ways tail.now next }
{
    match tail {
        [] => match next {
            Some(n) => Successors::Two(target, n),
            None => Successors::One(target),
        },
        [j, ..] => match j.kind.exit() {
            Exit::Always(n) => Successors::Two(target, n),
            _ => unreachable!(),
        },
    }
}
