//! The subprograms of scopes.

ghost use Rattle.std.specs.Prelude.{◌≡◌, [], IfOk, OnOk};
ghost use Rattle.inline_subroutines.specs.Subprogram.{scope_around, IsSubprogramOf};
ghost use Rattle.inline_subroutines.specs.steps.Known.{AreSubprograms, IsScopeWay, AreKept};

use base_ids::metadata::NodeId;
use read_metadata::metadata::Metadata;
use std::alloc::{AllocError, Global};
use std::collections::BTreeMap;

/// The subprograms of the scopes that were met. Each scope is walked once, however many ask for it.
#[derive(Drop)]
pub struct Subprograms {
    /// By the number of the scope's node.
    pub known: BTreeMap<u32, Option<NodeId>>,
}

impl Subprograms {
    /// No scope was met. It takes no memory.
    pub fn new(alloc: Global) -> Subprograms
        ensures { result.known.entries ≡ [] }
    {
        Subprograms {
            known: BTreeMap::new(alloc),
        }
    }

    /// The subprogram of a scope. The error is out of memory.
    pub fn of(
        &mut self,
        alloc: Global,
        meta: &Metadata,
        scope: Option<NodeId>,
    ) -> Result<Option<NodeId>, AllocError>
        requires { AreSubprograms meta.now [] self.old.known }
        ensures found { IfOk result (IsSubprogramOf meta.now scope) }
        ensures known { OnOk result (AreSubprograms meta.now [] self.new.known) }
    {
        let mut way = Vec::new(alloc);
        let found = walk(&mut self.known, meta, scope, &mut way)?;
        keep(&mut self.known, way.as_slice(), &found)?;
        Ok(found)
    }
}

/// The subprogram of a scope, with the scopes on the way to it. Each of these is known to have none until then, so that
/// a way that meets one twice ends there.
fn walk(
    known: &mut BTreeMap<u32, Option<NodeId>>,
    meta: &Metadata,
    scope: Option<NodeId>,
    way: &mut Vec<NodeId>,
) -> Result<Option<NodeId>, AllocError>
    requires known { AreSubprograms meta.now [] known.old }
    requires none { way.old.items ≡ [] }
    ensures { IfOk result (IsScopeWay meta.now scope way.new.items known.new) }
{
    let mut at = scope;
    'scopes: loop {
        let Some(node) = at else {
            return Ok(None);
        };
        if let Some(found) = known.get(&node.number()) {
            return Ok(*found);
        }
        // A way is no longer than a vector may be, so it ends.
        let _before = way.len();
        drop(known.insert(node.number(), None)?);
        way.push(node)?;
        if meta.subprogram(node).is_some() {
            return Ok(Some(node));
        }
        match scope_around(meta, node) {
            Some(around) => at = Some(around),
            None => return Ok(None),
        }
    }
}

/// The scope around a lexical block.
fn scope_around(meta: &Metadata, block: NodeId) -> Option<NodeId>
    ensures { result ≡ scope_around meta.now block }
{
    meta.block(block)?.scope
}

/// Keeps that all scopes on a way have this subprogram.
fn keep(
    known: &mut BTreeMap<u32, Option<NodeId>>,
    way: &[NodeId],
    found: &Option<NodeId>,
) -> Result<(), AllocError>
    ensures { OnOk result (AreKept way.now found.now known.old known.new) }
{
    for scope in way {
        drop(known.insert(scope.number(), *found)?);
    }
    Ok(())
}
