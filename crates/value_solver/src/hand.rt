//! What a block propagates to its successors.

ghost use Rattle.std.specs.Prelude.{◌≡◌, ◌<◌, length, IfOk};
ghost use Rattle.value_solver.specs.Joining.{IsKnown, AreWithin, SourceWithin, IsPast, class_past, bit_past};

use crate::entry::BlockEntry;
use crate::flow::{Change, Source};
use std::alloc::{AllocError, Global};

/// An upper bound of register numbers, exclusive.
const REGISTERS: u64 = 4128;

/// The classes and bits at a block's end. A new token has a class above all classes of the block's entry.
#[derive(Drop)]
pub struct Exit {
    pub classes: Vec<u64>,
    pub given: Vec<bool>,
}

/// The classes and bits at the end of a block with this entry and these changes. The error is out of memory.
pub fn hand_on(alloc: Global, entry: &BlockEntry, changes: &[Change]) -> Result<Exit, AllocError>
    requires few { length entry.now.classes < 4294967295 }
    requires known { IsKnown (length entry.now.classes) entry.now }
    requires within { AreWithin (length entry.now.classes) changes.now }
    ensures { IfOk result (λ x.
        IsPast (record { entry = entry.now; changes = changes.now }) x.classes.items x.given.items) }
{
    let mut classes = widened(alloc, entry.classes.as_slice())?;
    let mut given = Vec::from_slice(alloc, entry.given.as_slice())?;
    for change in changes {
        let thing = change.thing as usize;
        classes[thing] = class_past(entry.classes.as_slice(), change.source);
        given[thing] = bit_past(entry.given.as_slice(), change.source);
    }
    Ok(Exit { classes, given })
}

fn widened(alloc: Global, classes: &[u32]) -> Result<Vec<u64>, AllocError>
    ensures { IfOk result (λ v. v.items ≡ classes.now) }
{
    let mut wide = Vec::with_capacity(alloc, classes.len())?;
    for class in classes {
        wide.push(u64::from(*class))?;
    }
    Ok(wide)
}

fn class_past(classes: &[u32], source: Source) -> u64
    requires few { length classes.now < 4294967295 }
    requires within { SourceWithin (length classes.now) source }
    ensures { result ≡ class_past (length classes.now) classes.now source }
{
    match source {
        Source::Was(thing) => u64::from(classes[thing as usize]),
        Source::New(index, register) => {
            classes.len() as u64 + 1 + REGISTERS * u64::from(index) + u64::from(register.number())
        }
        Source::Nameless => 0,
    }
}

fn bit_past(given: &[bool], source: Source) -> bool
    requires within { SourceWithin (length given.now) source }
    ensures { result ≡ bit_past given.now source }
{
    match source {
        Source::Was(thing) => given[thing as usize],
        Source::New(_, _) => true,
        Source::Nameless => false,
    }
}
