//! The entries of functions and variables.

ghost use Rattle.std.specs.Prelude.{◌≡◌, ◌++◌, ◌∷◌, ◌+◌, [], Some, None, cond, map, nat_lt, IfOk, OnOk};
ghost use Rattle.std.specs.List.{flat_map, slice_get};
ghost use Rattle.dwarf_info.specs.Standard.{DW_TAG_formal_parameter, DW_TAG_variable};
ghost use Rattle.typed_unit.specs.Entries;
ghost use Rattle.typed_unit.specs.Entries.{abstract_item, block_item, call_item, declared_attributes, description};
ghost use Rattle.typed_unit.specs.Entries.{frame_attribute, function_items, inner_item, linkage_attribute};
ghost use Rattle.typed_unit.specs.Entries.{list_attribute, origin_attribute, result_attribute, subprogram_item, variable_item};

use crate::constants::*;
use crate::content::{Call, Declared, Inner, Subprogram, TypedFunction, TypedVariable};
use base_list::List;
use dwarf_entry::tree::{Attributes, Tree, TreeItem, Value};
use dwarf_info::constants::*;
use dwarf_info::unit::Name;
use std::alloc::{AllocError, Global};
use type_entries::constants::DW_AT_prototyped;
use type_entries::members::{at, push_entry};
use type_entries::table::{TypeTable, stands, variable_type};
use type_nodes::shape::Shape;

/// Appends where something is declared.
fn push_declared(attributes: &mut Attributes, declared: &Option<Declared>) -> Result<(), AllocError>
    ensures { OnOk result (attributes.new ≡ attributes.old ++ declared_attributes declared.now) }
{
    match declared {
        None => Ok(()),
        Some(d) => {
            attributes.push(at(DW_AT_decl_file, Value::Unsigned(u64::from(d.file))))?;
            attributes.push(at(DW_AT_decl_line, Value::Unsigned(u64::from(d.line))))
        }
    }
}

/// Appends the name of a symbol, if there is one.
fn push_linkage(attributes: &mut Attributes, name: &Name) -> Result<(), AllocError>
    ensures { OnOk result (attributes.new ≡ attributes.old ++ linkage_attribute name.now) }
{
    if name.is_empty() {
        Ok(())
    } else {
        attributes.push(at(DW_AT_linkage_name, Value::Text(name.copy()?)))
    }
}

/// The type of the result of the type with this index, if that is a function's.
fn result_at(t: &TypeTable, index: u32) -> Option<u32>
    ensures { result ≡ Entries.result_in (slice_get t.now.types index) }
{
    match t.types.as_slice().get(index as usize) {
        Some(Shape::Subroutine(result, _, _)) => *result,
        _ => None,
    }
}

/// The type of a function's result, by the function's own type.
pub(crate) fn result_type(t: &TypeTable, signature: Option<u32>) -> Option<u32>
    ensures { result ≡ Entries.result_type t.now.types t.now.stands.items signature }
{
    match signature {
        None => None,
        Some(index) => {
            if stands(t, index) {
                result_at(t, index)
            } else {
                None
            }
        }
    }
}

/// Appends the type of a result, if there is one.
fn push_result(
    attributes: &mut Attributes,
    t: &TypeTable,
    index: Option<u32>,
) -> Result<(), AllocError>
    ensures { OnOk result (attributes.new ≡ attributes.old ++ result_attribute t.now index) }
{
    match index {
        None => Ok(()),
        Some(_) => attributes.push(at(u16::from(DW_AT_type), variable_type(t, index))),
    }
}

/// A function as it is declared.
fn description(alloc: Global, t: &TypeTable, s: &Subprogram) -> Result<Attributes, AllocError>
    ensures { IfOk result (λ attributes. attributes ≡ description t.now s.now) }
{
    let mut attributes = Attributes::new(alloc);
    attributes.push(at(u16::from(DW_AT_name), Value::Text(s.name.copy()?)))?;
    push_linkage(&mut attributes, &s.linkage_name)?;
    push_declared(&mut attributes, &s.declared)?;
    attributes.push(at(DW_AT_external, Value::Flag(s.external)))?;
    attributes.push(at(DW_AT_prototyped, Value::Flag(s.prototyped)))?;
    push_result(&mut attributes, t, result_type(t, s.signature))?;
    Ok(attributes)
}

/// Appends functions that were inlined, apart from their calls.
pub(crate) fn push_abstracts(
    tree: &mut Tree,
    alloc: Global,
    t: &TypeTable,
    subprograms: &[Subprogram],
) -> Result<(), AllocError>
    ensures { OnOk result (tree.new ≡ tree.old ++ map (abstract_item t.now) subprograms.now) }
{
    for s in subprograms {
        push_abstract(tree, alloc, t, s)?;
    }
    Ok(())
}

/// Appends a function that was inlined, apart from its calls.
fn push_abstract(
    tree: &mut Tree,
    alloc: Global,
    t: &TypeTable,
    s: &Subprogram,
) -> Result<(), AllocError>
    ensures { OnOk result (tree.new ≡ tree.old ++ abstract_item t.now s.now ∷ []) }
{
    let mut attributes = description(alloc, t, s)?;
    attributes.push(at(u16::from(DW_AT_inline), Value::Data1(DW_INL_inlined)))?;
    push_entry(tree, u16::from(DW_TAG_subprogram), false, attributes)
}

/// Appends a location list, if there is one.
fn push_list(attributes: &mut Attributes, list: Option<u64>) -> Result<(), AllocError>
    ensures { OnOk result (attributes.new ≡ attributes.old ++ list_attribute list) }
{
    match list {
        None => Ok(()),
        Some(list) => attributes.push(at(u16::from(DW_AT_location), Value::LocationList(list))),
    }
}

/// Appends a parameter or a variable. The error is out of memory.
pub fn push_variable(
    tree: &mut Tree,
    alloc: Global,
    t: &TypeTable,
    v: &TypedVariable,
) -> Result<(), AllocError>
    ensures { OnOk result (tree.new ≡ tree.old ++ variable_item t.now v.now ∷ []) }
{
    let mut attributes = Attributes::new(alloc);
    attributes.push(at(u16::from(DW_AT_name), Value::Text(v.name.copy()?)))?;
    push_declared(&mut attributes, &v.declared)?;
    attributes.push(at(u16::from(DW_AT_type), variable_type(t, v.base)))?;
    push_list(&mut attributes, v.list)?;
    push_entry(tree, variable_tag(v.argument), false, attributes)
}

/// The tag of a parameter or a variable.
fn variable_tag(argument: bool) -> u16
    ensures { result ≡ cond argument DW_TAG_formal_parameter DW_TAG_variable }
{
    if argument {
        u16::from(DW_TAG_formal_parameter)
    } else {
        u16::from(DW_TAG_variable)
    }
}

/// Appends a block.
fn push_block(tree: &mut Tree, alloc: Global, list: u64) -> Result<(), AllocError>
    ensures { OnOk result (tree.new ≡ tree.old ++ block_item list ∷ []) }
{
    let mut attributes = Attributes::new(alloc);
    attributes.push(at(u16::from(DW_AT_ranges), Value::RangeList(list)))?;
    push_entry(tree, DW_TAG_lexical_block, true, attributes)
}

/// The entry of a function that was inlined, by its index, if those of all are the items from `begin` up to `end`.
fn origin_item(begin: usize, end: usize, origin: u32) -> Option<usize>
    ensures { result ≡ cond (nat_lt (begin + origin) end) (Some (begin + origin)) None }
{
    let item = begin as u128 + u128::from(origin);
    if item < end as u128 {
        Some(begin + origin as usize)
    } else {
        None
    }
}

/// Appends the entry of a function that was inlined, if it is there.
fn push_origin(
    attributes: &mut Attributes,
    begin: usize,
    end: usize,
    origin: u32,
) -> Result<(), AllocError>
    ensures { OnOk result (attributes.new ≡ attributes.old ++ origin_attribute begin end origin) }
{
    match origin_item(begin, end, origin) {
        None => Ok(()),
        Some(item) => {
            attributes.push(at(u16::from(DW_AT_abstract_origin), Value::Reference(item)))
        }
    }
}

/// Appends the code of a function that was inlined.
fn push_call(
    tree: &mut Tree,
    alloc: Global,
    begin: usize,
    end: usize,
    c: &Call,
) -> Result<(), AllocError>
    ensures { OnOk result (tree.new ≡ tree.old ++ call_item begin end c.now ∷ []) }
{
    let mut attributes = Attributes::new(alloc);
    push_origin(&mut attributes, begin, end, c.origin)?;
    attributes.push(at(u16::from(DW_AT_ranges), Value::RangeList(c.list)))?;
    attributes.push(at(
        u16::from(DW_AT_call_file),
        Value::Unsigned(u64::from(c.file)),
    ))?;
    attributes.push(at(
        u16::from(DW_AT_call_line),
        Value::Unsigned(u64::from(c.line)),
    ))?;
    attributes.push(at(
        u16::from(DW_AT_call_column),
        Value::Unsigned(u64::from(c.column)),
    ))?;
    push_entry(tree, u16::from(DW_TAG_inlined_subroutine), true, attributes)
}

/// Appends an item of what stands inside a function.
fn push_inner(
    tree: &mut Tree,
    alloc: Global,
    t: &TypeTable,
    begin: usize,
    end: usize,
    item: &Inner,
) -> Result<(), AllocError>
    ensures { OnOk result (tree.new ≡ tree.old ++ inner_item t.now begin end item.now ∷ []) }
{
    match item {
        Inner::Variable(v) => push_variable(tree, alloc, t, v),
        Inner::Block(list) => push_block(tree, alloc, *list),
        Inner::Inlined(c) => push_call(tree, alloc, begin, end, c),
        Inner::End => tree.push(TreeItem::Null),
    }
}

/// Appends what stands inside a function.
fn push_inside(
    tree: &mut Tree,
    alloc: Global,
    t: &TypeTable,
    begin: usize,
    end: usize,
    inside: &[Inner],
) -> Result<(), AllocError>
    ensures { OnOk result (tree.new ≡ tree.old ++ map (inner_item t.now begin end) inside.now) }
{
    for item in inside {
        push_inner(tree, alloc, t, begin, end, item)?;
    }
    Ok(())
}

/// Appends the frame base, if it is told.
fn push_frame_base(attributes: &mut Attributes, alloc: Global, told: bool) -> Result<(), AllocError>
    ensures { OnOk result (attributes.new ≡ attributes.old ++ frame_attribute told) }
{
    if told {
        let expression = List::from_slice(alloc, &[DW_OP_call_frame_cfa])?;
        attributes.push(at(DW_AT_frame_base, Value::Expression(expression)))
    } else {
        Ok(())
    }
}

/// Appends a function without its children.
fn push_subprogram(
    tree: &mut Tree,
    alloc: Global,
    t: &TypeTable,
    frame_base: bool,
    f: &TypedFunction,
) -> Result<(), AllocError>
    ensures { OnOk result (tree.new ≡ tree.old ++ subprogram_item t.now frame_base f.now ∷ []) }
{
    let mut attributes = description(alloc, t, &f.subprogram)?;
    attributes.push(at(u16::from(DW_AT_low_pc), Value::Address(f.lo)))?;
    attributes.push(at(u16::from(DW_AT_high_pc), Value::Data4(f.len)))?;
    push_frame_base(&mut attributes, alloc, frame_base)?;
    push_entry(tree, u16::from(DW_TAG_subprogram), true, attributes)
}

/// Appends a function with what stands inside it.
fn push_function(
    tree: &mut Tree,
    alloc: Global,
    t: &TypeTable,
    begin: usize,
    end: usize,
    frame_base: bool,
    f: &TypedFunction,
) -> Result<(), AllocError>
    ensures { OnOk result (tree.new ≡ tree.old ++ function_items t.now begin end frame_base f.now) }
{
    push_subprogram(tree, alloc, t, frame_base, f)?;
    push_inside(tree, alloc, t, begin, end, f.inside.as_slice())?;
    tree.push(TreeItem::Null)
}

/// Appends functions with what stands inside them, where the entries of those that were inlined are the items from
/// `begin` up to `end`.
pub(crate) fn push_functions(
    tree: &mut Tree,
    alloc: Global,
    t: &TypeTable,
    begin: usize,
    end: usize,
    frame_base: bool,
    functions: &[TypedFunction],
) -> Result<(), AllocError>
    ensures { OnOk result (tree.new
        ≡ tree.old ++ flat_map (function_items t.now begin end frame_base) functions.now) }
{
    for f in functions {
        push_function(tree, alloc, t, begin, end, frame_base, f)?;
    }
    Ok(())
}
