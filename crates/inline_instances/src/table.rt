//! The table of the instances of a function.

ghost use Rattle.std.specs.Prelude.{◌≡◌, ◌++◌, ◌∷◌, ℕ, List, [], Option, Some, length, IfOk};
ghost use Rattle.std.specs.Ordering.{nat_cmp};
ghost use Rattle.std.specs.BTreeMap.{Updates};
ghost use Rattle.inline_instances.specs.steps.Table.{IsTable, IsEntering, IsInnermost, scope_behind, with_instance};

use crate::instance::Instance;
use crate::way::{WayEnd, innermost_call, scope_of_call, walk};
use base_ids::metadata::NodeId;
use dwarf_line_table::scope_line::scope_line;
use mir_func::location::Loc;
use read_metadata::metadata::Metadata;
use std::alloc::{AllocError, Global};
use std::collections::BTreeMap;

/// The instances of a function, as far as they are known.
#[derive(Drop)]
pub struct InstanceTable {
    /// For each node that was met the index of its instance, and none for a call that leads to a circle.
    pub marks: BTreeMap<u32, Option<usize>>,
    /// The instances.
    pub instances: Vec<Instance>,
}

impl InstanceTable {
    /// No instances. It takes no memory.
    pub fn new(alloc: Global) -> InstanceTable
        ensures marks { result.marks.entries ≡ [] }
        ensures instances { result.instances.items ≡ [] }
    {
        InstanceTable {
            marks: BTreeMap::new(alloc),
            instances: Vec::new(alloc),
        }
    }

    /// The innermost instance of code at a debug location, by its index, and none for the function's own code. New
    /// instances are appended, outer ones first. The error is out of memory.
    pub fn innermost(
        &mut self,
        alloc: Global,
        meta: &Metadata,
        loc: &Loc,
    ) -> Result<Option<usize>, AllocError>
        ensures { IsTable meta.now [] self.old →
            IfOk result (IsInnermost meta.now loc.now self.old.instances.items self.new) }
    {
        let mut way = Vec::new(alloc);
        let from = innermost_call(meta, loc);
        let scope = scope_line(meta, loc).scope;
        match walk(&mut self.marks, meta, from, &mut way)? {
            WayEnd::Circle => Ok(None),
            WayEnd::Outermost => self.enter(meta, way, None, scope),
            WayEnd::Known(index) => self.enter(meta, way, Some(index), scope),
        }
    }

    /// Appends the instances of the calls on a way, of which the first is the innermost one and the last one stands in
    /// the parent. The scope is that of the code in the first.
    fn enter(
        &mut self,
        meta: &Metadata,
        way: Vec<NodeId>,
        parent: Option<usize>,
        scope: Option<NodeId>,
    ) -> Result<Option<usize>, AllocError>
        ensures { (from : Option ℕ) (calls : List ℕ) (old : List Instance) →
            IsEntering meta.now from scope calls old way.items parent self.old →
            IfOk result (λ found. IsEntering meta.now from scope calls old [] found self.new) }
    {
        let mut way = way;
        let mut outer = parent;
        while let Some(call) = way.pop() {
            let inner = scope_in_way(meta, scope, way.as_slice());
            outer = Some(self.add(call, outer, inner)?);
        }
        Ok(outer)
    }

    /// Appends an instance, and gives its index.
    fn add(
        &mut self,
        call: NodeId,
        parent: Option<usize>,
        scope: Option<NodeId>,
    ) -> Result<usize, AllocError>
        ensures instances { IfOk result (λ index. with_instance self.old.instances.items call parent scope
            self.new.instances.items index) }
        ensures marks { IfOk result (λ index. Updates nat_cmp self.old.marks self.new.marks call (Some (Some index))) }
    {
        let index = self.instances.len();
        self.instances.push(Instance {
            call,
            parent,
            scope,
        })?;
        drop(self.marks.insert(call.number(), Some(index))?);
        Ok(index)
    }
}

/// The scope of the code at the end of a way through calls, which begins in a scope: that of the last call's location.
fn scope_in_way(meta: &Metadata, scope: Option<NodeId>, way: &[NodeId]) -> Option<NodeId>
    ensures { result ≡ scope_behind meta.now scope way.now }
{
    match way.last() {
        Some(call) => scope_of_call(meta, *call),
        None => scope,
    }
}
