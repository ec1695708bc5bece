//! The values that the source knows.

ghost use Rattle.std.specs.Prelude.{◌≡◌};
ghost use Rattle.sem_mir.specs.State.{State};
ghost use Rattle.sem_interpreter.specs.StandsFor.{StandsFor};
ghost use Rattle.selftest_count.specs.Counts.{known_in};

use mir_func::variable::VarId;
use sem_interpreter::state::SourceState;

/// The number of these parts of variables whose last assignment has a value.
pub fn known(state: &SourceState, parts: &[VarId]) -> usize
    ensures { (s : State) → StandsFor state.now s → result ≡ known_in parts.now s }
{
    let mut known = 0;
    for part in parts {
        if state.value_of(part).is_some() {
            known += 1;
        }
    }
    known
}
