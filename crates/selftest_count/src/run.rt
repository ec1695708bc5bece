//! A whole run with its counts.

ghost use Rattle.std.specs.Prelude.{All, IfNone, IfOk, IfSome};
ghost use Rattle.mir_func.specs.Resolve.{resolve};
ghost use Rattle.dwarf_loclists.specs.Ranges.{Ascend, ArePlaces};
ghost use Rattle.sem_interpreter.specs.StandsFor.{IsPosition, AreCounted};
ghost use Rattle.sem_interpreter.specs.Steps.{source_of};
ghost use Rattle.selftest_count.specs.Runs.{AreCountsOf, GoApart};
ghost use Rattle.selftest_count.specs.steps.Beside.{CountsFrom, ApartFrom};
ghost use Rattle.selftest_count.specs.steps.Bounds.{CanBeRead};

use crate::counts::Counts;
use crate::turn::{StepOutcome, make_turn};
use dwarf_loclists::range::{RangeLists, Ranges};
use emit_code::code::Code;
use mir_func::func::Func;
use mir_func::variable::VarId;
use mir_substitution::substitutions::Substitutions;
use rv64_instr::start::Values;
use rv64_instr::symbol::SymbolAddresses;
use sem_interpreter::state::SourceState;
use sim_machine::machine::MachineSimulator;
use sim_start::answers::ValueAnswers;
use sim_start::start::start_with;
use std::alloc::{AllocError, Global};

/// The counts of a run of machine code, of at most `limit` steps, from the start without arguments, in lockstep with
/// the run of its source. Before each step the source comes to the origin of the machine's line, and each location list
/// is read at the program counter. It is `None` if the runs diverge: the source doesn't come to a line, calls, or stops
/// on a frame fault, or the machine stops other than at a return, or calls.
pub fn count_run(
    alloc: Global,
    source: &Func,
    subs: &Substitutions,
    code: &Code,
    lists: &RangeLists,
    parts: &[VarId],
    limit: u32,
) -> Result<Option<Counts>, AllocError>
    requires counted { AreCounted source.now.blocks }
    requires readable { All (λ ranges. Ascend ranges × ArePlaces ranges) lists.now }
    ensures counts { IfOk result (λ o.
        IfSome o (AreCountsOf source.now (resolve subs.now) code.now lists.now parts.now limit)) }
    ensures apart { IfOk result (λ o.
        IfNone o (GoApart source.now (resolve subs.now) code.now lists.now parts.now limit)) }
{
    let start = start_with(alloc, SymbolAddresses::new(alloc), &[]);
    let answers = ValueAnswers {
        values: Values::new(alloc),
    };
    let mut machine = MachineSimulator::new(alloc, code, &start, answers)?;
    let mut state = SourceState::new(alloc, source, &start)?;
    count_steps(
        &mut machine,
        &mut state,
        source,
        subs,
        lists.as_slice(),
        parts,
        limit,
    )
}

/// Makes at most `limit` steps of both runs from their current states, and counts them.
fn count_steps(
    machine: &mut MachineSimulator<ValueAnswers>,
    state: &mut SourceState,
    source: &Func,
    subs: &Substitutions,
    lists: &[Ranges],
    parts: &[VarId],
    limit: u32,
) -> Result<Option<Counts>, AllocError>
    requires counted { AreCounted source.now.blocks }
    requires at { IsPosition source.now.blocks state.old.pos }
    requires readable { All CanBeRead lists.now }
    ensures counts { IfOk result (λ o. IfSome o (CountsFrom (source_of source.now.blocks subs.now) machine.old.code
        lists.now parts.now limit machine.old.hart state.old)) }
    ensures apart { IfOk result (λ o. IfNone o (ApartFrom (source_of source.now.blocks subs.now) machine.old.code
        lists.now parts.now limit machine.old.hart state.old)) }
{
    let mut counts = Counts::new();
    let mut moved = false;
    'steps: while counts.steps < limit {
        match make_turn(
            machine,
            state,
            &mut moved,
            &mut counts,
            source,
            subs,
            lists,
            parts,
        )? {
            StepOutcome::Went => {}
            StepOutcome::Returned => return Ok(Some(counts)),
            StepOutcome::Apart => return Ok(None),
        }
    }
    Ok(Some(counts))
}
