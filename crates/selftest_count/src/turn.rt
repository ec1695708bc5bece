//! One step of both runs in lockstep.

ghost use Rattle.std.specs.Prelude.{◌≡◌, ◌+◌, ◌<◌, ◌^◌, All, IfNone, IfOk, IfSome};
ghost use Rattle.sem_interpreter.specs.StandsFor.{IsPosition, AreCounted};
ghost use Rattle.sem_interpreter.specs.Steps.{source_of};
ghost use Rattle.selftest_count.specs.steps.Beside.{Meets, MeetsNot, Leads, is_kept};
ghost use Rattle.selftest_count.specs.steps.Bounds.{AreBounded, CanBeRead};

use crate::counts::Counts;
use crate::known::known;
use crate::read::reads;
use crate::source::align;
use dwarf_loclists::range::Ranges;
use emit_code::code::EncodedInstruction;
use mir_func::func::Func;
use mir_func::position::{Origin, position_of};
use mir_func::variable::VarId;
use mir_substitution::substitutions::Substitutions;
use sem_interpreter::state::SourceState;
use sim_machine::ending::{Stepped, Stop};
use sim_machine::machine::MachineSimulator;
use sim_start::answers::ValueAnswers;
use std::alloc::AllocError;

/// The result of a step of both runs.
#[derive(Clone, Copy, Debug, PartialEq, Eq)]
pub enum StepOutcome {
    /// Both continue.
    Went,
    /// The machine's run ends.
    Returned,
    /// They diverge: the source doesn't come to the machine's line, or the machine stops or calls.
    Apart,
}

/// Makes one step of both runs, and counts it.
pub fn make_turn(
    machine: &mut MachineSimulator<ValueAnswers>,
    state: &mut SourceState,
    moved: &mut bool,
    counts: &mut Counts,
    f: &Func,
    subs: &Substitutions,
    lists: &[Ranges],
    parts: &[VarId],
) -> Result<StepOutcome, AllocError>
    requires counted { AreCounted f.now.blocks }
    requires at { IsPosition f.now.blocks state.old.pos }
    requires readable { All CanBeRead lists.now }
    requires steps { counts.old.steps + 1 < 2 ^ 32 }
    requires bounded { AreBounded counts.old }
    ensures code { machine.new.code ≡ machine.old.code }
    ensures at { IsPosition f.now.blocks state.new.pos }
    ensures bounded { AreBounded counts.new }
    ensures steps { IfOk result (λ t. t ≡ StepOutcome.Went → counts.new.steps ≡ counts.old.steps + 1) }
    ensures leads { IfOk result (λ t. Leads (source_of f.now.blocks subs.now) machine.old.code lists.now parts.now t
        counts.old counts.new machine.old.hart machine.new.hart state.old state.new moved.old moved.new) }
{
    match meet(machine, state, f, subs, *moved)? {
        None => Ok(StepOutcome::Apart),
        Some(entry) => {
            counts.count(reads(lists, machine.counter()), known(state, parts));
            *moved = is_kept(&entry.origin);
            match machine.step()? {
                Stepped::Went => Ok(StepOutcome::Went),
                Stepped::Stopped(Stop::Ended(_)) => Ok(StepOutcome::Returned),
                Stepped::Stopped(Stop::Left) => Ok(StepOutcome::Apart),
                Stepped::Stopped(Stop::BadWord(_)) => Ok(StepOutcome::Apart),
            }
        }
    }
}

/// The entry at the machine's program counter, if it isn't a call site and the source comes to its origin.
fn meet(
    machine: &MachineSimulator<ValueAnswers>,
    state: &mut SourceState,
    f: &Func,
    subs: &Substitutions,
    moved: bool,
) -> Result<Option<EncodedInstruction>, AllocError>
    requires counted { AreCounted f.now.blocks }
    requires at { IsPosition f.now.blocks state.old.pos }
    ensures meets { IfOk result (λ o. IfSome o (λ e. Meets (source_of f.now.blocks subs.now) machine.now.code moved
        machine.now.hart state.old state.new e)) }
    ensures apart { IfOk result (λ o. IfNone o (MeetsNot (source_of f.now.blocks subs.now) machine.now.code moved
        machine.now.hart state.old)) }
    ensures at { IsPosition f.now.blocks state.new.pos }
{
    match machine.entry() {
        None => Ok(None),
        Some(entry) => {
            if machine.calls(&entry) {
                return Ok(None);
            }
            if align(state, f, subs, moved, position_of(entry.origin))? {
                Ok(Some(entry))
            } else {
                Ok(None)
            }
        }
    }
}

/// Whether code was kept from the source.
fn is_kept(origin: &Origin) -> bool
    ensures { result ≡ is_kept origin.now }
{
    match origin {
        Origin::Kept(_) => true,
        Origin::Before(_) => false,
    }
}
