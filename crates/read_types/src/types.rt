//! The types of a program.

ghost use Rattle.std.specs.Prelude.{◌≡◌, ◌<◌, [], length, IfOk};
ghost use Rattle.std.specs.List.{filter_map};
ghost use Rattle.read_types.specs.Shapes.{shape_at};
ghost use Rattle.read_types.specs.Types.{is_type, type_nodes, types_of};

use crate::indices::TypeNodes;
use crate::shape::shape_at;
use base_list::List;
use read_debug_nodes::metadata::DebugMetadata;
use read_debug_nodes::read_metadata_crate::rv64_instr_crate::base_ids_crate::metadata::NodeId;
use std::alloc::{AllocError, Global};
use type_nodes::shape::Shape;

/// The types of a program, ascending by their nodes. They name one another by their indices.
#[derive(Drop)]
pub struct ProgramTypes {
    /// The node of each type.
    pub nodes: TypeNodes,
    /// What each type is.
    pub types: List<Shape>,
}

/// The types of a program, from its debug metadata. The time is that of sorting the nodes and what they name, and
/// linear in what is written of the types. The error is out of memory.
pub fn program_types(alloc: Global, m: &DebugMetadata) -> Result<ProgramTypes, AllocError>
    ensures nodes { IfOk result (λ t. t.nodes ≡ type_nodes m.now) }
    ensures types { IfOk result (λ t. t.types ≡ types_of m.now) }
    ensures long { IfOk result (λ t. length t.types ≡ length t.nodes) }
    ensures few { IfOk result (λ t. length t.types < 4294967296) }
{
    let nodes = type_nodes(alloc, m)?;
    if nodes.len() >= 4_294_967_296 {
        return Err(AllocError);
    }
    let nodes = TypeNodes::new(nodes);
    let types = shapes(alloc, m, &nodes)?;
    Ok(ProgramTypes { nodes, types })
}

/// Whether the node with a number is a type.
fn is_type(
    alloc: Global,
    m: &DebugMetadata,
    none: &TypeNodes,
    number: NodeId,
) -> Result<bool, AllocError>
    requires { none.now ≡ [] }
    ensures { IfOk result (λ is. is ≡ is_type m.now number) }
{
    let shape = shape_at(alloc, m, none, number)?;
    Ok(shape.is_some())
}

/// The nodes of types, ascending.
fn type_nodes(alloc: Global, m: &DebugMetadata) -> Result<List<NodeId>, AllocError>
    ensures { IfOk result (λ nodes. nodes ≡ type_nodes m.now) }
{
    let numbers = m.numbers(alloc)?;
    let none = TypeNodes::new(List::new(alloc));
    let mut nodes = List::new(alloc);
    for number in numbers.as_slice() {
        if is_type(alloc, m, &none, *number)? {
            nodes.push(*number)?;
        }
    }
    Ok(nodes)
}

/// What the types with these nodes are.
fn shapes(alloc: Global, m: &DebugMetadata, nodes: &TypeNodes) -> Result<List<Shape>, AllocError>
    ensures { IfOk result (λ types. types ≡ filter_map (shape_at m.now nodes.now) nodes.now) }
{
    let mut types = List::new(alloc);
    for node in nodes.as_slice() {
        if let Some(shape) = shape_at(alloc, m, nodes, *node)? {
            types.push(shape)?;
        }
    }
    Ok(types)
}
