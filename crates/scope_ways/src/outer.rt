//! From a scope to the one around it.

ghost use Rattle.std.specs.Prelude.{◌≡◌};
ghost use Rattle.std.specs.Ordering.{nat_cmp};
ghost use Rattle.std.specs.BTreeSet.{contains};
ghost use Rattle.scope_ways.specs.Outer.{around, around_call, is_scope};

use crate::scope::{LexicalScope, Outer};
use base_ids::metadata::NodeId;
use read_metadata::metadata::Metadata;
use std::collections::BTreeSet;

/// What is around a scope: a lexical block is in its own scope, and a subprogram, if it was inlined, in that of the
/// location of the call.
pub fn around(meta: &Metadata, scope: &LexicalScope) -> Outer
    ensures { result ≡ around meta.now scope.now }
{
    let Some(node) = scope.node else {
        return Outer::Unknown;
    };
    if let Some(block) = meta.block(node) {
        return Outer::Scope(LexicalScope {
            node: block.scope,
            inlined_at: scope.inlined_at,
        });
    }
    match (meta.subprogram(node).is_some(), scope.inlined_at) {
        (false, _) => Outer::Unknown,
        (true, None) => Outer::Function,
        (true, Some(call)) => around_call(meta, call),
    }
}

/// What is around a subprogram that was inlined: the scope of the location of the call.
fn around_call(meta: &Metadata, call: NodeId) -> Outer
    ensures { result ≡ around_call meta.now call }
{
    match meta.location(call) {
        Some(location) => Outer::Scope(LexicalScope {
            node: location.scope,
            inlined_at: location.inlined_at,
        }),
        None => Outer::Unknown,
    }
}

/// Whether a scope on a way is one of its own: neither the function's own subprogram nor a `DILexicalBlockFile`, which
/// stands for the scope around it. The set has the nodes that are `DILexicalBlockFile`.
pub fn is_scope(meta: &Metadata, files: &BTreeSet<u32>, scope: &LexicalScope) -> bool
    ensures { result ≡ is_scope meta.now (contains nat_cmp files.now) scope.now }
{
    match scope.node {
        Some(node) => match meta.block(node) {
            Some(_) => !files.contains(&node.number()),
            None => scope.inlined_at.is_some(),
        },
        None => false,
    }
}
