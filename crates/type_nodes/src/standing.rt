//! Which types stand.

ghost use Rattle.std.specs.Prelude.{◌≡◌, ◌<◌, length, IfOk};
ghost use Rattle.type_nodes.specs.Standing.{AreStanding};
ghost use Rattle.type_nodes.specs.steps.Graphs.{AreAll};

use crate::shape::{Shape, Walk};
use crate::steps::{chains, steps};
use graph_cycles::ends::ends;
use std::alloc::{AllocError, Global};

/// Whether each type stands: it is made of something, and no walk from it by value or by name comes to a circle. The
/// time is linear in the types and in what they name. The error is out of memory.
pub fn standing(alloc: Global, types: &[Shape]) -> Result<Vec<bool>, AllocError>
    requires { length types.now < 4294967296 }
    ensures { IfOk result (λ marks. AreStanding types.now marks.items) }
{
    let chains = chains(alloc, types)?;
    let made = ends(alloc, chains.as_slice())?;
    let by_value = steps(alloc, types, made.marks.as_slice(), Walk::ByValue)?;
    let values = ends(alloc, by_value.as_slice())?;
    let by_name = steps(alloc, types, made.marks.as_slice(), Walk::ByName)?;
    let names = ends(alloc, by_name.as_slice())?;
    all(
        alloc,
        made.marks.as_slice(),
        values.marks.as_slice(),
        names.marks.as_slice(),
    )
}

/// Where all three are true.
fn all(alloc: Global, a: &[bool], b: &[bool], c: &[bool]) -> Result<Vec<bool>, AllocError>
    requires b { length b.now ≡ length a.now }
    requires c { length c.now ≡ length a.now }
    ensures { IfOk result (λ marks. AreAll a.now b.now c.now marks.items) }
{
    let mut marks = Vec::with_capacity(alloc, a.len())?;
    for i in 0..a.len() {
        marks.push(a[i] && b[i] && c[i])?;
    }
    Ok(marks)
}
