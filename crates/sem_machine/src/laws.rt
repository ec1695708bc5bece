//! Laws of images and of the machine: each is the contract of a function with an empty body.

ghost use Rattle.std.specs.Prelude.{ℕ};
ghost use Rattle.rv64_instr.specs.declared.place.Place.{Place};
ghost use Rattle.sem_mir.specs.mir_func.declared.variable.VarId.{VarId};
ghost use Rattle.sem_machine.specs.HeadlineLaws.{HeadlineReachesEveryStep};

/// The location lists of a function.
pub trait LocationLists {
    /// The location that a variable's list names at an address.
    ghost gives: { VarId → ℕ → Place → Type 0 };
}

/// If the headline holds, each run of the machine is matched with a run of the source, unless the source stops on a
/// frame fault.
pub fn headline_reaches_every_step<L: LocationLists>()
    ensures { HeadlineReachesEveryStep L.gives }
{}
