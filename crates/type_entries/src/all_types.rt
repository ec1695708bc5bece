//! The entries of all types of a program.

ghost use Rattle.std.specs.Prelude.{◌≡◌, ◌&&◌, ◌++◌, ◌∷◌, [], length, ◌<◌, codes, cond, not, Some, IfOk, OnOk};
ghost use Rattle.std.specs.List.{list_any};
ghost use Rattle.graph_cycles.specs.Ends.{is_marked};
ghost use Rattle.type_entries.specs.Entries;
ghost use Rattle.type_entries.specs.Entries.{shape_items};
ghost use Rattle.type_entries.specs.Types;
ghost use Rattle.type_entries.specs.Types.{AreKnown, AreStarts, IsTable, items_from, unknown_item};

use crate::table::{TypeTable, is_known};
use crate::types::{push_base, push_shape};
use base_list::List;
use dwarf_entry::tree::Tree;
use std::alloc::{AllocError, Global};
use type_nodes::shape::{Name, Shape};
use type_nodes::sizes::sizes;
use type_nodes::standing::standing;

static UNKNOWN_NAME: [u8; 7] = *b"unknown";

/// The encoding of unsigned numbers (DWARF 5 section 7.8).
const DW_ATE_unsigned: u8 = 0x07;

/// Which of these types stand, and their sizes. No item has a place yet. The time is linear in the types and in what
/// they name. The error is out of memory.
pub fn table_of(alloc: Global, types: List<Shape>) -> Result<TypeTable, AllocError>
    requires { length types < 4294967296 }
    ensures types { IfOk result (λ t. t.types ≡ types) }
    ensures known { IfOk result AreKnown }
{
    let stands = standing(alloc, types.as_slice())?;
    let sizes = sizes(alloc, types.as_slice())?;
    Ok(TypeTable {
        types,
        stands,
        sizes,
        items: Vec::new(alloc),
        unknown: 0,
    })
}

/// Gives the items of types places behind those of a tree, to which they are appended next, and the unknown type this
/// item. The error is out of memory, and the tree is then another one.
pub fn place_types(
    tree: &mut Tree,
    alloc: Global,
    t: &mut TypeTable,
    unknown: usize,
) -> Result<(), AllocError>
    requires { AreKnown t.old }
    ensures tree { OnOk result (tree.new ≡ tree.old) }
    ensures types { OnOk result (t.new.types ≡ t.old.types) }
    ensures stands { OnOk result (t.new.stands.items ≡ t.old.stands.items) }
    ensures sizes { OnOk result (t.new.sizes.items ≡ t.old.sizes.items) }
    ensures unknown { OnOk result (t.new.unknown ≡ unknown) }
    ensures table { OnOk result (IsTable (length tree.old) t.new) }
{
    // The number of items doesn't depend on where they are.
    let first = tree.len();
    t.unknown = unknown;
    let items = push_all(tree, alloc, t, t.types.as_slice())?;
    t.items = items;
    tree.items.truncate(first);
    Ok(())
}

/// Appends the items of those of these types that stand. Returns where the items of each type begin.
fn push_all(
    tree: &mut Tree,
    alloc: Global,
    t: &TypeTable,
    types: &[Shape],
) -> Result<Vec<usize>, AllocError>
    ensures items { OnOk result (tree.new ≡ tree.old ++ items_from t.now 0 types.now) }
    ensures starts { IfOk result (λ starts. AreStarts (length tree.old) t.now types.now starts.items) }
{
    let mut starts = Vec::with_capacity(alloc, types.len())?;
    for shape in types {
        let index = starts.len();
        starts.push(tree.len())?;
        push_told(tree, alloc, t, index, shape)?;
    }
    Ok(starts)
}

/// Appends the items of a type, if what has this index stands.
fn push_told(
    tree: &mut Tree,
    alloc: Global,
    t: &TypeTable,
    index: usize,
    shape: &Shape,
) -> Result<(), AllocError>
    ensures { OnOk result (tree.new
        ≡ tree.old ++ cond (is_marked t.now.stands.items index) (shape_items t.now shape.now) []) }
{
    if index < t.stands.len() && t.stands[index] {
        push_shape(tree, alloc, t, shape)
    } else {
        Ok(())
    }
}

/// Appends the items of all types that stand, in order. The error is out of memory.
pub fn push_types(tree: &mut Tree, alloc: Global, t: &TypeTable) -> Result<(), AllocError>
    ensures { OnOk result (tree.new ≡ tree.old ++ items_from t.now 0 t.now.types) }
{
    push_all(tree, alloc, t, t.types.as_slice())?;
    Ok(())
}

/// Appends the unknown type. The error is out of memory.
pub fn push_unknown(tree: &mut Tree, alloc: Global) -> Result<(), AllocError>
    ensures { OnOk result (tree.new ≡ tree.old ++ unknown_item ∷ []) }
{
    let name = unknown_name(alloc)?;
    push_base(tree, alloc, &name, 8, DW_ATE_unsigned)
}

/// The name of the unknown type.
fn unknown_name(alloc: Global) -> Result<Name, AllocError>
    ensures { IfOk result (λ name. name ≡ codes "unknown") }
{
    Name::from_slice(alloc, &UNKNOWN_NAME)
}

/// Whether an item of the types that stand names the unknown one.
pub fn types_name_unknown(t: &TypeTable) -> bool
    ensures { result ≡ Types.types_name_unknown t.now.stands.items t.now.sizes.items 0 t.now.types }
{
    some_name_unknown(t, t.types.as_slice())
}

/// Whether an item of those of these types that stand does.
fn some_name_unknown(t: &TypeTable, types: &[Shape]) -> bool
    ensures { result ≡ Types.types_name_unknown t.now.stands.items t.now.sizes.items 0 types.now }
{
    for i in 0..types.len() {
        if told_names_unknown(t, i, &types[i]) {
            return true;
        }
    }
    false
}

/// Whether an item of a type does, if what has this index stands.
fn told_names_unknown(t: &TypeTable, index: usize, shape: &Shape) -> bool
    ensures { result ≡ (is_marked t.now.stands.items index
        && Types.names_unknown t.now.stands.items t.now.sizes.items shape.now) }
{
    index < t.stands.len() && t.stands[index] && names_unknown(t, shape)
}

/// Whether an item of a type names the unknown one.
fn names_unknown(t: &TypeTable, shape: &Shape) -> bool
    ensures { result ≡ Types.names_unknown t.now.stands.items t.now.sizes.items shape.now }
{
    match shape {
        Shape::Subroutine(_, parameters, _) => is_one_unknown(t, parameters.as_slice()),
        _ => false,
    }
}

/// Whether a parameter of these types has the unknown one.
fn is_one_unknown(t: &TypeTable, parameters: &[u32]) -> bool
    ensures { result ≡ list_any (λ n. not (Entries.is_known t.now.stands.items t.now.sizes.items (Some n))) parameters.now }
{
    for index in parameters {
        if !is_known(t, Some(*index)) {
            return true;
        }
    }
    false
}
