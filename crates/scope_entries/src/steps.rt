//! A walk over the scopes of a function.

ghost use Rattle.std.specs.Prelude.{◌≡◌, IfOk};
ghost use Rattle.scope_entries.specs.Prefix.{steps_of, IsForest};

use crate::links::links;
use crate::step::ScopeStep;
use scope_ranges::scope::Scope;
use std::alloc::{AllocError, Global};

/// The walk over these scopes, in prefix order. The time is linear in them. The error is out of memory.
pub fn steps(alloc: Global, scopes: &[Scope]) -> Result<Vec<ScopeStep>, AllocError>
    requires { IsForest scopes.now }
    ensures { IfOk result (λ steps. steps.items ≡ steps_of scopes.now) }
{
    let links = links(alloc, scopes)?;
    let mut steps = Vec::new(alloc);
    let mut open: Vec<usize> = Vec::new(alloc);
    let mut ahead = links.first;
    'steps: loop {
        match ahead {
            Some(index) => {
                steps.push(ScopeStep::Open(index))?;
                open.push(index)?;
                ahead = links.inner[index];
            }
            None => match open.pop() {
                Some(index) => {
                    steps.push(ScopeStep::Close(index))?;
                    ahead = links.next[index];
                }
                None => return Ok(steps),
            },
        }
    }
}
