//! The tree of a compilation unit with its types.

ghost use Rattle.std.specs.Prelude.{◌≡◌, ◌<◌, ◌++◌, ◌∷◌, [], codes, length, IfOk, OnOk};
ghost use Rattle.dwarf_entry.specs.Entries.{RefersWithin};
ghost use Rattle.type_entries.specs.Types.{AreKnown};
ghost use Rattle.typed_unit.specs.Unit.{
  code_attributes,
  head_items,
  ranges_attribute,
  source_attributes,
  unit_by,
  unit_item,
  unknown_items,
  with_functions,
  IsTypedTree,
};

use crate::constants::DW_AT_producer;
use crate::content::TypedUnit;
use crate::entries::{push_abstracts, push_functions};
use crate::unknown::uses_unknown;
use base_list::List;
use dwarf_entry::tree::{Attributes, Tree, TreeItem, Value};
use dwarf_info::constants::*;
use dwarf_info::unit::Name;
use std::alloc::{AllocError, Global};
use type_entries::all_types::{place_types, push_types, push_unknown, table_of};
use type_entries::members::{at, push_entry};
use type_entries::table::TypeTable;
use type_nodes::shape::Shape;

static PRODUCER: [u8; 8] = *b"mirdwarf";

/// The item of the unknown type.
const UNKNOWN: usize = 1;

/// The tree of a unit with the types of a table, whose items it gives their places. The time is linear in what is told.
/// The error is out of memory, and the table then knows no places.
pub fn typed_tree(alloc: Global, t: &mut TypeTable, unit: &TypedUnit) -> Result<Tree, AllocError>
    requires known { AreKnown t.old }
    ensures tree { IfOk result (IsTypedTree t.old.types unit.now) }
    ensures references { IfOk result RefersWithin }
{
    let mut tree = head(alloc, t, unit)?;
    place_types(&mut tree, alloc, t, UNKNOWN)?;
    push_rest(&mut tree, alloc, t, unit)?;
    Ok(tree)
}

/// The tree of a unit with these types. The time is linear in what is told. The error is out of memory.
pub fn tree_of(alloc: Global, types: List<Shape>, unit: &TypedUnit) -> Result<Tree, AllocError>
    requires few { length types < 4294967296 }
    ensures tree { IfOk result (IsTypedTree types unit.now) }
    ensures references { IfOk result RefersWithin }
{
    let mut table = table_of(alloc, types)?;
    typed_tree(alloc, &mut table, unit)
}

/// What stands before the types.
fn head(alloc: Global, t: &TypeTable, unit: &TypedUnit) -> Result<Tree, AllocError>
    ensures { IfOk result (λ tree. tree ≡ head_items t.now unit.now) }
{
    let mut tree = Tree::new(alloc);
    push_unit(&mut tree, alloc, unit)?;
    push_used(&mut tree, alloc, uses_unknown(t, unit))?;
    Ok(tree)
}

/// Appends all that stands inside a unit behind the unknown type, up to its end.
fn push_rest(
    tree: &mut Tree,
    alloc: Global,
    t: &TypeTable,
    unit: &TypedUnit,
) -> Result<(), AllocError>
    ensures { OnOk result (tree.new ≡ with_functions t.now unit.now tree.old) }
{
    push_types(tree, alloc, t)?;
    let begin = tree.len();
    push_abstracts(tree, alloc, t, unit.abstracts.as_slice())?;
    let end = tree.len();
    let functions = unit.functions.as_slice();
    push_functions(tree, alloc, t, begin, end, unit.frame_base, functions)?;
    tree.push(TreeItem::Null)
}

/// Appends the unknown type, if it is used.
fn push_used(tree: &mut Tree, alloc: Global, used: bool) -> Result<(), AllocError>
    ensures { OnOk result (tree.new ≡ tree.old ++ unknown_items used) }
{
    if used {
        push_unknown(tree, alloc)
    } else {
        Ok(())
    }
}

/// The program that makes units.
fn producer(alloc: Global) -> Result<Name, AllocError>
    ensures { IfOk result (λ name. name ≡ codes "mirdwarf") }
{
    Name::from_slice(alloc, &PRODUCER)
}

/// Appends the unit.
fn push_unit(tree: &mut Tree, alloc: Global, unit: &TypedUnit) -> Result<(), AllocError>
    ensures { OnOk result (tree.new ≡ tree.old ++ unit_item unit.now ∷ []) }
{
    let producer = producer(alloc)?;
    push_unit_by(tree, alloc, producer, unit)
}

/// Appends the unit, by the program that makes it.
fn push_unit_by(
    tree: &mut Tree,
    alloc: Global,
    producer: Name,
    unit: &TypedUnit,
) -> Result<(), AllocError>
    ensures { OnOk result (tree.new ≡ tree.old ++ unit_by producer unit.now ∷ []) }
{
    let mut attributes = Attributes::new(alloc);
    push_source(&mut attributes, producer, unit)?;
    push_code(&mut attributes, unit)?;
    push_ranges(&mut attributes, unit.ranges)?;
    push_entry(tree, u16::from(DW_TAG_compile_unit), true, attributes)
}

/// Appends the program that made a unit, and the unit's source.
fn push_source(
    attributes: &mut Attributes,
    producer: Name,
    unit: &TypedUnit,
) -> Result<(), AllocError>
    ensures { OnOk result (attributes.new ≡ attributes.old ++ source_attributes producer unit.now) }
{
    attributes.push(at(DW_AT_producer, Value::Text(producer)))?;
    attributes.push(at(u16::from(DW_AT_language), Value::Data2(unit.language)))?;
    attributes.push(at(u16::from(DW_AT_name), Value::Text(unit.name.copy()?)))?;
    attributes.push(at(u16::from(DW_AT_comp_dir), Value::Text(unit.dir.copy()?)))
}

/// Appends where a unit's code and its tables are.
fn push_code(attributes: &mut Attributes, unit: &TypedUnit) -> Result<(), AllocError>
    ensures { OnOk result (attributes.new ≡ attributes.old ++ code_attributes unit.now) }
{
    attributes.push(at(u16::from(DW_AT_stmt_list), Value::SectionOffset(0)))?;
    attributes.push(at(u16::from(DW_AT_low_pc), Value::Address(0)))?;
    attributes.push(at(u16::from(DW_AT_high_pc), Value::Data4(unit.text_len)))?;
    let lists = Value::SectionOffset(LOCLISTS_BASE);
    attributes.push(at(u16::from(DW_AT_loclists_base), lists))
}

/// Appends where range lists begin, if there are some.
fn push_ranges(attributes: &mut Attributes, ranges: bool) -> Result<(), AllocError>
    ensures { OnOk result (attributes.new ≡ attributes.old ++ ranges_attribute ranges) }
{
    if ranges {
        let lists = Value::SectionOffset(RNGLISTS_BASE);
        attributes.push(at(u16::from(DW_AT_rnglists_base), lists))
    } else {
        Ok(())
    }
}
