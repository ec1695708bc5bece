//! The entry at the function's start.

ghost use Rattle.std.specs.Prelude.{◌≡◌, ◌<◌, IfOk, length};
ghost use Rattle.value_solver.specs.Flows.{IsStart};
ghost use Rattle.value_live_ins.specs.Walking.{AreTracked};
ghost use Rattle.value_live_ins.specs.steps.Starting.{starts_with, own_class};

use std::alloc::{AllocError, Global};
use value_solver::entry::{Bits, BlockEntry, Numbers};
use value_solver::tracked::Tracked;

/// The function's start entry: each register and each constant has a token of its own there, and nothing else has one.
/// The error is out of memory.
pub fn start_entry(alloc: Global, things: &[Tracked]) -> Result<BlockEntry, AllocError>
    requires few { length things.now < 4294967295 }
    requires tracked { AreTracked things.now }
    ensures { IfOk result (IsStart things.now) }
{
    let mut classes = Numbers::new(alloc);
    let mut given = Bits::new(alloc);
    for i in 0..things.len() {
        let some = starts_with(&things[i]);
        classes.push(own_class(some, i))?;
        given.push(some)?;
    }
    Ok(BlockEntry {
        reached: true,
        classes,
        given,
    })
}

/// The class of the entity at an index: its own, or 0.
fn own_class(some: bool, i: usize) -> u32
    requires { i < 4294967295 }
    ensures { result ≡ own_class some i }
{
    if some { i as u32 + 1 } else { 0 }
}

/// Whether the function starts with a token for the entity.
fn starts_with(thing: &Tracked) -> bool
    ensures { result ≡ starts_with thing.now }
{
    match thing {
        Tracked::Register(_) => true,
        Tracked::Slot(_) => false,
        Tracked::Pair(_) => false,
        Tracked::Part(_) => false,
        Tracked::Number(_) => true,
    }
}
