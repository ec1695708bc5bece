//! The trait of passes, and the laws that each pass keeps.
ghost use Rattle.std.specs.Prelude.{◌≡◌, ℕ, ◌+◌, ◌*◌, ◌<◌, ◌≤◌, ◌^◌, List, Bool, IsTrue, IfOk, OnOk};
ghost use Rattle.sem_simulation.specs.mir_func.Limits.{MAX_SLOTS};
ghost use Rattle.pass_trait.specs.Change.{change};
ghost use Rattle.pass_trait.specs.Simulation.{PreservesSimulation};
ghost use Rattle.pass_trait.specs.Code.{HasOneResult, SeesCodeAlone};
ghost use Rattle.pass_trait.specs.Steps.{PassStep, EachCode, KeepsSteps, MakeCodeAlone};
ghost use Rattle.pass_trait.specs.Sizes.{greatest, greatest_number, most_numbers, KeepsSizes};

use crate::loss::Losses;
use mir_substitution::substitutions::Substitutions;
use sem_simulation::mir_func_crate::func::Func;
use std::alloc::{AllocError, Global};

/// A transformation of a function and its substitutions, with its guarantees. A pass states the facts below of itself,
/// and its laws are the clauses of `run` over them:
/// - `follows`: the pass preserves the simulation, if its parts fit (`fits`): a source that simulates the function before
///   the pass, with matched block ends if the pass requires them (`asks`), simulates the function after it. So debug
///   locations that are true of the new function are true of the source. Matched block ends are kept if it says (`keeps`).
/// - `steps`: it runs its steps in order, and the function is sound after each. The code after a step, stripped of
///   debug values, DBG_PHIs and numbers, is related to the code before it by the step's code rule. And each debug value,
///   DBG_PHI, number and substitution is kept, or the losses name it with its cause, except for numbers that are
///   substituted or whose code defines nothing. The losses name nothing else, and nothing is added but what the step
///   declares: a substitution only for a number that no item has any more, a kill only for what is lost with a bypassed
///   block.
/// - `sizes`: bounds on items, calls, numbers and slots after it, by which a caller sees that none runs out.
/// - `same`: the pass value is unchanged, and may be run again.
///
/// No step's code rule depends on debug items (`same_code`), so they never affect code: `debug_items_change_no_code`.
pub trait Pass {
    /// Whether the laws need that the function has the source's block ends (`EndsAsSource`).
    ghost asks: { Bool };
    /// Whether it keeps the source's block ends.
    ghost keeps: { Bool };
    /// Whether its parts fit: each keeps the block ends that a later one needs. A pass without parts fits.
    ghost fits: { Bool };
    /// The factor in the bound on items and on code after it, at least 1.
    ghost factor: { ℕ };
    /// The count in the bounds: how many items more for each block that a function may have, how many numbers for each
    /// item, and how many times `MAX_SLOTS` slot numbers.
    ghost count: { ℕ };
    /// Its steps, each with a code rule and a debug rule; for a composed pass those of its parts, in order.
    ghost steps: { Self → List PassStep };

    /// Runs the pass and returns what it lost. After an error the function and its substitutions may only be dropped.
    fn run(
        &mut self,
        alloc: Global,
        f: &mut Func,
        subs: &mut Substitutions,
    ) -> Result<Losses, AllocError>
        requires numbers { greatest_number f.old subs.old + most_numbers factor count f.old < 2 ^ 31 }
        requires slots { greatest f.old.slots + MAX_SLOTS * count < 2 ^ 31 }
        ensures follows { OnOk result (IsTrue fits → PreservesSimulation asks keeps (change f.old subs.old f.new subs.new)) }
        ensures steps { IfOk result (KeepsSteps (steps self.old) (change f.old subs.old f.new subs.new)) }
        ensures sizes { OnOk result (KeepsSizes factor count (change f.old subs.old f.new subs.new)) }
        ensures same { self.new ≡ self.old };

    /// Each step's code rule is functional: it determines the code after the step.
    ghost one_code: { (s : Self) → EachCode HasOneResult (steps s) };
    /// No step's code rule depends on debug items.
    ghost same_code: { (s : Self) → EachCode SeesCodeAlone (steps s) };
    /// Its factor is at least 1.
    ghost grows: { 1 ≤ factor };
}

/// The code after a pass is what the code rules of its steps make of the code before it. So debug items never affect
/// code: from two functions whose code is equal up to positions, whatever their debug items are, it makes two functions
/// whose code is equal up to positions.
pub fn debug_items_change_no_code<P: Pass>(pass: &P)
    ensures { MakeCodeAlone (P.steps pass.now) }
{}
