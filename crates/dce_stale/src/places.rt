//! The wrong places of a function whose dead code is removed.

ghost use Rattle.std.specs.Prelude.{◌≡◌, ◌<◌, ◌&&◌, length, slice_index_or, IfOk};
ghost use Rattle.rv64_instr.specs.declared.place.Place.{Place};
ghost use Rattle.mir_func.specs.Sound.{SlotsIn};
ghost use Rattle.dce_stale.specs.Flow.{wrong_past, goes_on};
ghost use Rattle.pass_liveness.specs.Sets.{has};
ghost use Rattle.dce_stale.specs.Sets.{AreStaleSets};

use crate::solve::settle;
use crate::walk::{go_on, step_down};
use base_list::List;
use mir_func::exit::Exit;
use mir_func::func::Func;
use mir_func::item::ItemKind;
use pass_liveness::live::{empty_sets, names_of};
use pass_liveness::names::SlotAndBlockNumbers;
use pass_liveness::set::PlaceSet;
use rv64_instr::place::Place;
use std::alloc::{AllocError, Global};
use std::marker::Model;

/// The places that are wrong at the starts of a function's blocks.
#[derive(Drop)]
pub struct StaleLocations {
    names: SlotAndBlockNumbers,
    starts: Vec<PlaceSet>,
}

impl Model for StaleLocations {
    ghost use Rattle.dce_stale.specs.Sets.{StaleSets};

    ghost Value = { StaleSets };

    ghost view = { λ w. record { slots = w.names.slots; ids = w.names.blocks; starts = w.starts.items } };
}

impl StaleLocations {
    /// Computes the wrong places of a function, for these dead items: for each block and each of its items whether it
    /// is dead. A block is visited again only where a predecessor's visit made a set grow, and once more at the end.
    pub fn solve(alloc: Global, f: &Func, dead: &[List<bool>]) -> Result<StaleLocations, AllocError>
        ensures { IfOk result (AreStaleSets f.now dead.now) }
    {
        let names = names_of(alloc, f)?;
        let mut starts = empty_sets(alloc, f.blocks.len())?;
        settle(alloc, &names, f, dead, &mut starts)?;
        Ok(StaleLocations { names, starts })
    }

    /// The places that are wrong at the start of the block of this index. It takes no memory.
    pub fn at_start(&self, block: usize) -> PlaceSet
        requires { block < length self.now.starts }
        ensures { result ≡ slice_index_or self.now.starts block result }
    {
        self.starts[block].copy()
    }

    /// From the places that are wrong before an item, which is dead or not, to those that are wrong after it. It takes
    /// no memory.
    pub fn step_down(&self, set: &mut PlaceSet, kind: &ItemKind, dead: bool)
        ensures { SlotsIn self.now.slots kind.now → (x : Place) →
            has self.now.slots set.new x ≡ wrong_past kind.now dead (has self.now.slots set.old) x }
    {
        step_down(&self.names, set, kind, dead);
    }

    /// From the places that are wrong after an item with this exit to those that are wrong before the next item. It
    /// takes no memory.
    pub fn go_on(&self, set: &mut PlaceSet, exit: Exit)
        ensures { (x : Place) → has self.now.slots set.new x ≡ (goes_on exit && has self.now.slots set.old x) }
    {
        go_on(&self.names, set, exit);
    }

    /// Whether a place is in a set. It takes no memory.
    pub fn contains(&self, set: &PlaceSet, p: Place) -> bool
        ensures { result ≡ has self.now.slots set.now p }
    {
        self.names.has(set, p)
    }
}
