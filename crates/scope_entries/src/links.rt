//! Which scopes stand beside each other.

ghost use Rattle.std.specs.Prelude.{IfOk};
ghost use Rattle.scope_entries.specs.Prefix.{IsForest};
ghost use Rattle.scope_entries.specs.steps.Links.{AreLinks};

use scope_ranges::scope::Scope;
use std::alloc::{AllocError, Global};

/// The order of scopes.
#[derive(Drop)]
pub struct ScopeLinks {
    /// The first scope in the function itself.
    pub first: Option<usize>,
    /// The first scope in each one.
    pub inner: Vec<Option<usize>>,
    /// The scope behind each one in the same scope.
    pub next: Vec<Option<usize>>,
}

/// The order of these scopes: those in one scope by their indices. The error is out of memory.
pub fn links(alloc: Global, scopes: &[Scope]) -> Result<ScopeLinks, AllocError>
    requires { IsForest scopes.now }
    ensures { IfOk result (AreLinks scopes.now) }
{
    let mut first = None;
    let mut inner = vec![in alloc; None; scopes.len()]?;
    let mut next = vec![in alloc; None; scopes.len()]?;
    let mut index = scopes.len();
    'scopes: while index > 0 {
        index -= 1;
        match scopes[index].parent {
            None => {
                next[index] = first;
                first = Some(index);
            }
            Some(parent) => {
                next[index] = inner[parent];
                inner[parent] = Some(index);
            }
        }
    }
    Ok(ScopeLinks { first, inner, next })
}
