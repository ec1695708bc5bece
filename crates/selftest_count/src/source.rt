//! The source's run from one code line of the machine to the next.

ghost use Rattle.std.specs.Prelude.{◌≡◌, false, IfOk, IsTrue};
ghost use Rattle.sem_interpreter.specs.StandsFor.{IsPosition, AreCounted};
ghost use Rattle.sem_interpreter.specs.Steps.{source_of};
ghost use Rattle.selftest_count.specs.steps.Beside.{ArrivesSo, AlignsSo, MissesSo, MissesNextSo};

use mir_func::func::Func;
use mir_func::position::Pos;
use mir_substitution::substitutions::Substitutions;
use sem_interpreter::state::{SourceState, SourceStep};
use std::alloc::AllocError;

/// The most steps that the source may make from one line to the next.
const MAX_STEPS: u64 = u64::MAX;

/// Steps the source to its next state that is aligned with a line at this position. It is false if there is none: the
/// source stops or calls before, or makes too many steps.
pub fn align(
    state: &mut SourceState,
    f: &Func,
    subs: &Substitutions,
    moved: bool,
    target: Pos,
) -> Result<bool, AllocError>
    requires counted { AreCounted f.now.blocks }
    requires at { IsPosition f.now.blocks state.old.pos }
    ensures aligned { IfOk result (λ came. IsTrue came
        → AlignsSo (source_of f.now.blocks subs.now) moved target state.old state.new) }
    ensures misses { IfOk result (λ came. came ≡ false
        → MissesNextSo (source_of f.now.blocks subs.now) moved target state.old) }
    ensures at { IsPosition f.now.blocks state.new.pos }
{
    if !moved {
        return arrive(state, f, subs, target);
    }
    match state.step(f, subs, None)? {
        SourceStep::Went => arrive(state, f, subs, target),
        SourceStep::Returned | SourceStep::Faulted | SourceStep::Waits => Ok(false),
    }
}

/// Steps the source to its first state at a position, which may be the current one.
fn arrive(
    state: &mut SourceState,
    f: &Func,
    subs: &Substitutions,
    target: Pos,
) -> Result<bool, AllocError>
    requires counted { AreCounted f.now.blocks }
    requires at { IsPosition f.now.blocks state.old.pos }
    ensures arrived { IfOk result (λ came. IsTrue came
        → ArrivesSo (source_of f.now.blocks subs.now) target state.old state.new) }
    ensures misses { IfOk result (λ came. came ≡ false
        → MissesSo (source_of f.now.blocks subs.now) target state.old) }
    ensures at { IsPosition f.now.blocks state.new.pos }
{
    let mut made = 0;
    'steps: while made < MAX_STEPS {
        if state.position() == target {
            return Ok(true);
        }
        match state.step(f, subs, None)? {
            SourceStep::Went => {}
            SourceStep::Returned | SourceStep::Faulted | SourceStep::Waits => return Ok(false),
        }
        made += 1;
    }
    Ok(false)
}
