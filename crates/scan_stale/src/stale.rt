//! The stale registers of a function where virtual registers are replaced by physical ones.

ghost use Rattle.std.specs.Prelude.{◌≡◌, ◌<◌, ◌≤◌, [], length, slice_index_or, IfOk};
ghost use Rattle.rv64_instr.specs.declared.place.Place.{Place};
ghost use Rattle.pass_liveness.specs.Sets.{has};
ghost use Rattle.scan_choice.specs.Given.{given_by};
ghost use Rattle.scan_stale.specs.Flow.{stale_next};
ghost use Rattle.scan_stale.specs.Sets.{start_in, AreStaleSets};
ghost use Rattle.scan_stale.specs.Written.{AreReal};

use crate::places::GivenPlaces;
use crate::solve::settle;
use crate::transfer::{go_on, step_down};
use crate::walk::start_of;
use mir_func::func::Func;
use mir_func::item::ItemKind;
use pass_liveness::live::{empty_sets, names_of};
use pass_liveness::names::SlotAndBlockNumbers;
use pass_liveness::set::PlaceSet;
use rv64_instr::place::Place;
use rv64_instr::reg::Reg;
use std::alloc::{AllocError, Global};
use std::marker::Model;

/// The registers that are stale at the starts of a function's blocks.
#[derive(Drop)]
pub struct StaleRegisters {
    names: SlotAndBlockNumbers,
    starts: Vec<PlaceSet>,
}

impl Model for StaleRegisters {
    ghost use Rattle.scan_stale.specs.Sets.{StaleSets};

    ghost Value = { StaleSets };

    ghost view = { λ w. record { slots = w.names.slots; ids = w.names.blocks; starts = w.starts.items } };
}

impl StaleRegisters {
    /// Computes the stale registers of a function, where virtual registers get the physical ones of these places. The
    /// error is out of memory.
    pub fn solve(alloc: Global, f: &Func, given: &GivenPlaces) -> Result<StaleRegisters, AllocError>
        requires few { length given.now ≤ 4096 }
        requires real { AreReal (given_by given.now) }
        ensures { IfOk result (AreStaleSets f.now (given_by given.now)) }
    {
        let names = names_of(alloc, f)?;
        let mut starts = empty_sets(alloc, f.blocks.len())?;
        settle(alloc, &names, f, given, &mut starts)?;
        Ok(StaleRegisters { names, starts })
    }

    /// The registers that are stale at the start of the block of this index, for the same table. It takes no memory.
    pub fn at_start(&self, given: &GivenPlaces, block: usize) -> PlaceSet
        requires few { length given.now ≤ 4096 }
        requires inside { block < length self.now.starts }
        ensures { (x : Place) → has self.now.slots result x
            ≡ start_in (given_by given.now) block (has self.now.slots (slice_index_or self.now.starts block [])) x }
    {
        start_of(&self.names, given, &self.starts[block], block)
    }

    /// From the registers that are stale before an item to those that are stale before the next one. It takes no memory.
    pub fn step_down(&self, given: &GivenPlaces, set: &mut PlaceSet, kind: &ItemKind)
        requires few { length given.now ≤ 4096 }
        requires real { AreReal (given_by given.now) }
        ensures { (x : Place) → has self.now.slots set.new x
            ≡ stale_next (given_by given.now) kind.now (has self.now.slots set.old) x }
    {
        step_down(&self.names, given, set, kind);
        go_on(&self.names, set, kind.exit());
    }

    /// Whether a register is in a set. It takes no memory.
    pub fn contains(&self, set: &PlaceSet, r: Reg) -> bool
        ensures { result ≡ has self.now.slots set.now (Place.Register r) }
    {
        self.names.has(set, Place::Register(r))
    }
}
