//! Substitutions from the entries that a listing shows.

ghost use Rattle.std.specs.Prelude.{◌≡◌, IfOk};
ghost use Rattle.mir_func.specs.Resolve.{resolve};

use mir_func::debug_substitution::DebugSubstitution;
use mir_substitution::substitutions::Substitutions;
use std::alloc::{AllocError, Global};

/// Substitutions by which pairs resolve as by these entries. The error is out of memory.
pub fn substitutions_of(
    alloc: Global,
    entries: &[DebugSubstitution],
) -> Result<Substitutions, AllocError>
    ensures { IfOk result (λ subs. resolve subs ≡ resolve entries.now) }
{
    let mut subs = Substitutions::new(alloc);
    for entry in entries {
        subs.add(*entry)?;
    }
    Ok(subs)
}
