//! The ways from scopes to the function.

ghost use Rattle.std.specs.Prelude.{◌≡◌, true, [], Contains, IfOk};
ghost use Rattle.scope_ways.specs.Ways.{IsWayOf};
ghost use Rattle.scope_ways.specs.steps.Walk.{EndsAt};

use crate::outer::around;
use crate::scope::{LexicalScope, Outer};
use read_metadata::metadata::Metadata;
use std::alloc::{AllocError, Global};

/// The way from a scope to the function: the scope, the one around it, and so on, up to the function's own subprogram.
/// It is empty if a node isn't readable or a scope comes twice. It takes time in proportion to the way. The error is
/// out of memory.
pub fn way(
    alloc: Global,
    meta: &Metadata,
    from: &LexicalScope,
) -> Result<Vec<LexicalScope>, AllocError>
    ensures { IfOk result (λ way. IsWayOf meta.now from.now way.items) }
{
    let mut way = Vec::new(alloc);
    let whole = walk(meta, from, &mut way)?;
    if whole { Ok(way) } else { Ok(Vec::new(alloc)) }
}

/// Walks the way from a scope, and says whether it comes to the function.
fn walk(
    meta: &Metadata,
    from: &LexicalScope,
    way: &mut Vec<LexicalScope>,
) -> Result<bool, AllocError>
    requires { way.old.items ≡ [] }
    ensures { IfOk result (EndsAt meta.now from.now way.new.items) }
{
    let mut at = copied(from);
    'scopes: loop {
        // A way is no longer than a vector may be, so it ends.
        let _before = way.len();
        let found = around(meta, &at);
        way.push(copied(&at))?;
        match found {
            Outer::Function => return Ok(true),
            Outer::Unknown => return Ok(false),
            Outer::Scope(next) => at = next,
        }
        if is_in_middle(way.as_slice(), &at) {
            return Ok(false);
        }
    }
}

fn copied(scope: &LexicalScope) -> LexicalScope
    ensures { result ≡ scope.now }
{
    *scope
}

/// Whether a scope is the one in the middle of a way. On a way that goes round the next scope is so at some time.
fn is_in_middle(way: &[LexicalScope], scope: &LexicalScope) -> bool
    ensures { result ≡ true → Contains way.now scope.now }
{
    match way.get(way.len() / 2) {
        Some(middle) => *middle == *scope,
        None => false,
    }
}
