//! The join of what the predecessors of a block propagate.

ghost use Rattle.std.specs.Prelude.{◌≡◌, ℕ, ◌<◌, List, [], ◌∷◌, ◌++◌, length, slice_index_or, false, min, ◌&&◌, IfOk};
ghost use Rattle.value_solver.specs.Joining.{Hand, IsJoin, IsPast};

use crate::entry::BlockEntry;
use crate::hand::Exit;
use crate::meet::{Pairs, meet};
use crate::renumber::renumbered;
use base_list::List;
use std::alloc::{AllocError, Global};

/// The join of nothing, unreached: all entities have class 0 and a set bit.
pub fn empty_join(alloc: Global, things: usize) -> Result<BlockEntry, AllocError>
    ensures { IfOk result (λ e. IsJoin things [] e) }
{
    let mut classes = List::new(alloc);
    let mut given = List::new(alloc);
    for _ in 0..things {
        classes.push(0)?;
        given.push(true)?;
    }
    Ok(BlockEntry {
        reached: false,
        classes,
        given,
    })
}

/// The join of one exit alone.
pub fn alone(alloc: Global, pairs: &mut Pairs, exit: Exit) -> Result<BlockEntry, AllocError>
    requires { length exit.classes.items < 4294967295 }
    ensures { IfOk result (λ e. (h : Hand) → IsPast h exit.classes.items exit.given.items
        → IsJoin (length exit.classes.items) (h ∷ []) e) }
{
    let Exit { classes, given } = exit;
    let numbers = renumbered(alloc, &mut pairs.numbers, classes.as_slice())?;
    Ok(BlockEntry {
        reached: true,
        classes: List::from(numbers),
        given: List::from(given),
    })
}

/// The join with the exit of one more predecessor.
pub fn join(
    alloc: Global,
    pairs: &mut Pairs,
    joined: BlockEntry,
    exit: &Exit,
) -> Result<BlockEntry, AllocError>
    requires few { length joined.classes < 4294967295 }
    requires long { length exit.now.classes.items ≡ length joined.classes }
    ensures { IfOk result (λ e. (hands : List Hand) (h : Hand) → IsJoin (length joined.classes) hands joined →
        IsPast h exit.now.classes.items exit.now.given.items
        → IsJoin (length joined.classes) (hands ++ h ∷ []) e) }
{
    let classes = meet(
        alloc,
        pairs,
        joined.classes.as_slice(),
        exit.classes.as_slice(),
    )?;
    let given = both(alloc, joined.given.as_slice(), exit.given.as_slice())?;
    Ok(BlockEntry {
        reached: true,
        classes: List::from(classes),
        given: List::from(given),
    })
}

/// The bits set in both.
fn both(alloc: Global, a: &[bool], b: &[bool]) -> Result<Vec<bool>, AllocError>
    ensures long { IfOk result (λ c. length c.items ≡ min (length a.now) (length b.now)) }
    ensures set { IfOk result (λ c. (i : ℕ) →
        slice_index_or c.items i false ≡ (slice_index_or a.now i false && slice_index_or b.now i false)) }
{
    a.iter().zip(b).map(|(x, y)| *x && *y).collect(alloc)
}
