//! Scopes and their indices.

ghost use Rattle.std.specs.Prelude.{◌≡◌, [], OnOk, IfOk};
ghost use Rattle.std.specs.List.{position_or_len};
ghost use Rattle.dwarf_line_table.specs.Files.{with_new};
ghost use Rattle.scope_ways.specs.Ways.{is_same};

use base_ids::metadata::NodeId;
use indexmap::IndexSet;
use scope_ways::scope::LexicalScope;
use std::alloc::{AllocError, Global};
use std::marker::Model;

/// A list of scopes without duplicates, in the order of their first use.
#[derive(Drop)]
pub struct KnownScopes {
    keys: IndexSet<(Option<u32>, Option<u32>)>,
}

impl Model for KnownScopes {
    ghost use Rattle.std.specs.Prelude.{List, map};
    ghost use Rattle.scope_ways.specs.declared.scope.LexicalScope.{LexicalScope};
    ghost use Rattle.scope_ranges.specs.steps.Keys.{seen};

    ghost Value = { List LexicalScope };

    ghost view = { λ k. map seen k.keys.keys };
}

impl KnownScopes {
    /// No scopes. It takes no memory.
    pub fn new(alloc: Global) -> KnownScopes
        ensures { result ≡ [] }
    {
        KnownScopes {
            keys: IndexSet::new(alloc),
        }
    }

    /// The index of a scope. A new one is appended. The error is out of memory.
    pub fn number(&mut self, scope: &LexicalScope) -> Result<usize, AllocError>
        ensures known { OnOk result (self.new ≡ with_new is_same self.old scope.now) }
        ensures number { IfOk result (λ n. n ≡ position_or_len (is_same scope.now) self.old) }
    {
        let (index, _) = self
            .keys
            .insert_full((number(scope.node), number(scope.inlined_at)))?;
        Ok(index)
    }
}

/// The number of a node.
fn number(node: Option<NodeId>) -> Option<u32>
    ensures { result ≡ node }
{
    node.map(|n| n.number())
}
