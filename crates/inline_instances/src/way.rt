//! The calls through which code was inlined, from inner to outer ones.

ghost use Rattle.std.specs.Prelude.{◌≡◌, ℕ, List, [], IfOk};
ghost use Rattle.read_item.specs.Debug.{inlined_at};
ghost use Rattle.inline_instances.specs.Calls.{call_at, outer_call};
ghost use Rattle.inline_instances.specs.Instances.{scope_of_call};
ghost use Rattle.inline_instances.specs.steps.Marks.{AreMarks, EndsAt};

use base_ids::metadata::NodeId;
use mir_func::location::Loc;
use read_item::debug::inlined_at;
use read_metadata::metadata::Metadata;
use std::alloc::AllocError;
use std::collections::BTreeMap;

/// Where a way through calls ends.
#[derive(Clone, Copy, Debug, PartialEq, Eq)]
pub enum WayEnd {
    /// Nowhere: it leads to a circle.
    Circle,
    /// At the function's own code.
    Outermost,
    /// At the call of the instance with this index.
    Known(usize),
}

/// The way from a call to one that has an instance, or to the function's own code. Each call on the way is marked as one
/// that leads to a circle until it gets an instance, so that a way that meets one twice ends there.
pub fn walk(
    marks: &mut BTreeMap<u32, Option<usize>>,
    meta: &Metadata,
    from: Option<NodeId>,
    way: &mut Vec<NodeId>,
) -> Result<WayEnd, AllocError>
    requires { way.old.items ≡ [] }
    ensures { (calls : List ℕ) → AreMarks meta.now calls [] marks.old →
        IfOk result (EndsAt meta.now calls from way.new.items marks.new) }
{
    let mut at = from;
    'calls: loop {
        let Some(call) = at else {
            return Ok(WayEnd::Outermost);
        };
        match marks.get(&call.number()) {
            Some(Some(index)) => return Ok(WayEnd::Known(*index)),
            Some(None) => return Ok(WayEnd::Circle),
            None => (),
        }
        // A way is no longer than a vector may be, so it ends.
        let _before = way.len();
        drop(marks.insert(call.number(), None)?);
        way.push(call)?;
        at = outer_call(meta, call);
    }
}

/// The call at a node: the node, if it is readable as a location.
fn call_at(meta: &Metadata, at: Option<NodeId>) -> Option<NodeId>
    ensures { result ≡ call_at meta.now at }
{
    let node = at?;
    let _ = meta.location(node)?;
    Some(node)
}

/// The call through which code at a debug location was inlined, the innermost one.
pub fn innermost_call(meta: &Metadata, loc: &Loc) -> Option<NodeId>
    ensures { result ≡ call_at meta.now (inlined_at meta.now loc.now) }
{
    call_at(meta, inlined_at(meta, *loc))
}

/// The call through which a call was inlined itself.
fn outer_call(meta: &Metadata, call: NodeId) -> Option<NodeId>
    ensures { result ≡ outer_call meta.now call }
{
    call_at(meta, meta.location(call)?.inlined_at)
}

/// The scope of the location of a call.
pub fn scope_of_call(meta: &Metadata, call: NodeId) -> Option<NodeId>
    ensures { result ≡ scope_of_call meta.now call }
{
    meta.location(call)?.scope
}
