//! The graphs of the walks between types.

ghost use Rattle.std.specs.Prelude.{◌≡◌, ◌++◌, ◌∷◌, [], ◌<◌, length, List, map, filter, IfOk, OnOk};
ghost use Rattle.std.specs.Option.{option_to_list};
ghost use Rattle.graph_cycles.specs.Ends.{is_marked};
ghost use Rattle.type_nodes.specs.Standing.{made_of, targets};
ghost use Rattle.type_nodes.specs.steps.Graphs.{chain_ways, step_ways, IsGraphOf};

use crate::shape::{Member, Shape, Walk};
use base_list::List;
use dataflow::graph::Ways;
use std::alloc::{AllocError, Global};

/// The steps from each type to what it is made of.
pub(crate) fn chains(alloc: Global, types: &[Shape]) -> Result<Vec<Ways>, AllocError>
    requires { length types.now < 4294967296 }
    ensures { IfOk result (λ graph. IsGraphOf (chain_ways (length types.now)) types.now graph.items) }
{
    let mut graph = Vec::with_capacity(alloc, types.len())?;
    for i in 0..types.len() {
        graph.push(chain(alloc, &types[i], i as u32, types.len() as u32)?)?;
    }
    Ok(graph)
}

/// The step from a type to what it is made of, and to itself where that is no type.
fn chain(alloc: Global, shape: &Shape, index: u32, types: u32) -> Result<Ways, AllocError>
    ensures { IfOk result (λ ways. ways ≡ chain_ways types index shape.now) }
{
    let mut ways = List::new(alloc);
    if let Some(base) = made_of(shape) {
        ways.push(if base < types { base } else { index })?;
    }
    Ok(ways)
}

/// What a qualifier, a typedef or an array is made of.
fn made_of(shape: &Shape) -> Option<u32>
    ensures { option_to_list result ≡ made_of shape.now }
{
    match shape {
        Shape::Qualifier(_, base) => *base,
        Shape::Typedef(_, base) => *base,
        Shape::Array(base, _) => Some(*base),
        _ => None,
    }
}

/// The steps of a walk between the types that are made of something.
pub(crate) fn steps(
    alloc: Global,
    types: &[Shape],
    made: &[bool],
    walk: Walk,
) -> Result<Vec<Ways>, AllocError>
    requires { length made.now ≡ length types.now }
    ensures { IfOk result (λ graph. IsGraphOf (step_ways walk made.now) types.now graph.items) }
{
    let mut graph = Vec::with_capacity(alloc, types.len())?;
    for i in 0..types.len() {
        let mut ways = List::new(alloc);
        if made[i] {
            push_targets(&mut ways, made, &types[i], walk)?;
        }
        graph.push(ways)?;
    }
    Ok(graph)
}

/// Appends the targets of a type's steps.
fn push_targets(ways: &mut Ways, made: &[bool], shape: &Shape, walk: Walk) -> Result<(), AllocError>
    ensures { OnOk result (ways.new ≡ ways.old ++ filter (is_marked made.now) (targets walk shape.now)) }
{
    match (walk, shape) {
        (_, Shape::Qualifier(_, base)) => push_some(ways, made, *base),
        (_, Shape::Typedef(_, base)) => push_some(ways, made, *base),
        (_, Shape::Array(base, _)) => push_made(ways, made, *base),
        (Walk::ByName, Shape::Pointer(_, base)) => push_some(ways, made, *base),
        (Walk::ByName, Shape::Subroutine(result, parameters, _)) => {
            push_some(ways, made, *result)?;
            push_all(ways, made, parameters.as_slice())
        }
        (Walk::ByValue, Shape::Record(_, _, _, members)) => {
            push_members(ways, made, members.as_slice())
        }
        _ => Ok(()),
    }
}

/// Appends the types of members.
fn push_members(ways: &mut Ways, made: &[bool], members: &[Member]) -> Result<(), AllocError>
    ensures { OnOk result (ways.new ≡ ways.old ++ filter (is_marked made.now) (map (λ m. m.base) members.now)) }
{
    for member in members {
        push_made(ways, made, member.base)?;
    }
    Ok(())
}

/// Appends types.
fn push_all(ways: &mut Ways, made: &[bool], indices: &[u32]) -> Result<(), AllocError>
    ensures { OnOk result (ways.new ≡ ways.old ++ filter (is_marked made.now) indices.now) }
{
    for index in indices {
        push_made(ways, made, *index)?;
    }
    Ok(())
}

/// Appends a type, if it is one.
fn push_some(ways: &mut Ways, made: &[bool], index: Option<u32>) -> Result<(), AllocError>
    ensures { OnOk result (ways.new ≡ ways.old ++ filter (is_marked made.now) (option_to_list index)) }
{
    match index {
        None => Ok(()),
        Some(index) => push_made(ways, made, index),
    }
}

/// Appends a type that is made of something.
fn push_made(ways: &mut Ways, made: &[bool], index: u32) -> Result<(), AllocError>
    ensures { OnOk result (ways.new ≡ ways.old ++ filter (is_marked made.now) (index ∷ [])) }
{
    if is_made(made, index) {
        ways.push(index)?;
    }
    Ok(())
}

/// Whether a type is made of something.
fn is_made(made: &[bool], index: u32) -> bool
    ensures { result ≡ is_marked made.now index }
{
    let index = index as usize;
    index < made.len() && made[index]
}
