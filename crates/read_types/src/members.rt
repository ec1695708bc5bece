//! The parts of types: members, enumerators, dimensions and parameters.

ghost use Rattle.std.specs.Prelude.{◌≡◌, IfOk};
ghost use Rattle.std.specs.Option.{option_and_then, option_copied, option_map};
ghost use Rattle.std.specs.List.{filter_map};
ghost use Rattle.read_debug_nodes.specs.Metadata.{node_at};
ghost use Rattle.read_types.specs.Indices.{index_in};
ghost use Rattle.read_types.specs.Parts.{
  count_at,
  counts_at,
  each_count,
  elements_at,
  enumerator_at,
  enumerators_at,
  ends_open,
  is_member,
  member_at,
  members_at,
  not_empty,
};

use crate::indices::TypeNodes;
use base_list::List;
use read_debug_nodes::metadata::DebugMetadata;
use read_debug_nodes::node::{DebugNode, DerivedForm, DerivedType, Elements};
use read_debug_nodes::read_metadata_crate::rv64_instr_crate::base_ids_crate::metadata::NodeId;
use std::alloc::{AllocError, Global};
use type_nodes::shape::{Counts, Enumerator, Enumerators, Indices, Member, Members};

/// The node with a number that may be missing.
fn node_of(m: &DebugMetadata, number: Option<NodeId>) -> Option<&DebugNode>
    ensures { option_copied result ≡ option_and_then (node_at m.now) number }
{
    match number {
        Some(number) => m.node(number),
        None => None,
    }
}

/// The elements of the tuple that a node is, if it is one.
pub(crate) fn elements_at(m: &DebugMetadata, number: Option<NodeId>) -> Option<&Elements>
    ensures { option_copied result ≡ elements_at m.now number }
{
    match node_of(m, number) {
        Some(DebugNode::Tuple(elements)) => Some(elements),
        _ => None,
    }
}

/// Whether a derived type is a member that is in its record.
fn is_member(d: &DerivedType) -> bool
    ensures { result ≡ is_member d.now }
{
    match d.form {
        DerivedForm::Member => !d.in_no_record,
        _ => false,
    }
}

/// The member that an element is, if it is one.
fn member_at(
    m: &DebugMetadata,
    nodes: &TypeNodes,
    element: Option<NodeId>,
) -> Result<Option<Member>, AllocError>
    ensures { IfOk result (λ member. member ≡ member_at m.now nodes.now element) }
{
    match node_of(m, element) {
        Some(DebugNode::Derived(d)) if is_member(d) => {
            let name = d.name.copy()?;
            Ok(Some(Member {
                name,
                base: nodes.index_or_past(d.base),
                offset: d.offset,
                size: d.size,
                bit_field: d.bit_field,
            }))
        }
        _ => Ok(None),
    }
}

/// The members among the elements of a tuple.
pub(crate) fn members_at(
    alloc: Global,
    m: &DebugMetadata,
    nodes: &TypeNodes,
    tuple: Option<NodeId>,
) -> Result<Members, AllocError>
    ensures { IfOk result (λ members. members ≡ members_at m.now nodes.now tuple) }
{
    match elements_at(m, tuple) {
        Some(elements) => members_in(alloc, m, nodes, elements.as_slice()),
        None => Ok(List::new(alloc)),
    }
}

/// The members among elements.
fn members_in(
    alloc: Global,
    m: &DebugMetadata,
    nodes: &TypeNodes,
    elements: &[Option<NodeId>],
) -> Result<Members, AllocError>
    ensures { IfOk result (λ members. members ≡ filter_map (member_at m.now nodes.now) elements.now) }
{
    let mut members = List::new(alloc);
    for element in elements {
        if let Some(member) = member_at(m, nodes, *element)? {
            members.push(member)?;
        }
    }
    Ok(members)
}

/// The enumerator that an element is, if it is one.
fn enumerator_at(
    m: &DebugMetadata,
    element: Option<NodeId>,
) -> Result<Option<Enumerator>, AllocError>
    ensures { IfOk result (λ enumerator. enumerator ≡ enumerator_at m.now element) }
{
    match node_of(m, element) {
        Some(DebugNode::Enumerator(e)) => {
            let name = e.name.copy()?;
            Ok(Some(Enumerator {
                name,
                value: e.value,
                negative: e.negative,
            }))
        }
        _ => Ok(None),
    }
}

/// The enumerators among the elements of a tuple.
pub(crate) fn enumerators_at(
    alloc: Global,
    m: &DebugMetadata,
    tuple: Option<NodeId>,
) -> Result<Enumerators, AllocError>
    ensures { IfOk result (λ enumerators. enumerators ≡ enumerators_at m.now tuple) }
{
    match elements_at(m, tuple) {
        Some(elements) => enumerators_in(alloc, m, elements.as_slice()),
        None => Ok(List::new(alloc)),
    }
}

/// The enumerators among elements.
fn enumerators_in(
    alloc: Global,
    m: &DebugMetadata,
    elements: &[Option<NodeId>],
) -> Result<Enumerators, AllocError>
    ensures { IfOk result (λ enumerators. enumerators ≡ filter_map (enumerator_at m.now) elements.now) }
{
    let mut enumerators = List::new(alloc);
    for element in elements {
        if let Some(enumerator) = enumerator_at(m, *element)? {
            enumerators.push(enumerator)?;
        }
    }
    Ok(enumerators)
}

/// The number of elements in the dimension that an element is, if it is one that begins at 0.
fn count_at(m: &DebugMetadata, element: Option<NodeId>) -> Option<Option<u64>>
    ensures { result ≡ count_at m.now element }
{
    match node_of(m, element) {
        Some(DebugNode::Subrange(d)) if d.lower == 0 => Some(d.count),
        _ => None,
    }
}

/// The dimensions that the elements of a tuple are, if there is one and all are some that begin at 0.
pub(crate) fn counts_at(
    alloc: Global,
    m: &DebugMetadata,
    tuple: Option<NodeId>,
) -> Result<Option<Counts>, AllocError>
    ensures { IfOk result (λ counts. counts ≡ counts_at m.now tuple) }
{
    match elements_at(m, tuple) {
        Some(elements) => {
            let counts = each_count(alloc, m, elements.as_slice())?;
            Ok(not_empty(counts))
        }
        None => Ok(None),
    }
}

/// The dimensions, if there are some and one at least.
fn not_empty(counts: Option<Counts>) -> Option<Counts>
    ensures { result ≡ not_empty counts }
{
    match counts {
        Some(counts) if !counts.is_empty() => Some(counts),
        _ => None,
    }
}

/// The dimensions that elements are, if all are some that begin at 0.
fn each_count(
    alloc: Global,
    m: &DebugMetadata,
    elements: &[Option<NodeId>],
) -> Result<Option<Counts>, AllocError>
    ensures { IfOk result (λ counts. counts ≡ each_count m.now elements.now) }
{
    let mut counts = List::new(alloc);
    for element in elements {
        let Some(count) = count_at(m, *element) else {
            return Ok(None);
        };
        counts.push(count)?;
    }
    Ok(Some(counts))
}

/// The types of parameters, but for those that are missing.
pub(crate) fn parameters_in(
    alloc: Global,
    nodes: &TypeNodes,
    elements: &[Option<NodeId>],
) -> Result<Indices, AllocError>
    ensures { IfOk result (λ indices. indices ≡ filter_map (option_map (index_in nodes.now)) elements.now) }
{
    let mut indices = List::new(alloc);
    for element in elements {
        if let Some(index) = nodes.index_of(*element) {
            indices.push(index)?;
        }
    }
    Ok(indices)
}

/// Whether the last of some elements is missing.
pub(crate) fn ends_open(elements: &[Option<NodeId>]) -> bool
    ensures { result ≡ ends_open elements.now }
{
    match elements.last() {
        Some(element) => element.is_none(),
        None => false,
    }
}
