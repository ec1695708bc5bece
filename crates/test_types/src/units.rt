//! The sections of units with types, as another writer of DWARF has them.

use base_list::List;
use dwarf_entry::abbreviation::{abbreviations_of, write_abbreviations};
use dwarf_entry::size::entries_size;
use dwarf_entry::tree::{Bytes, TreeItem};
use dwarf_info::unit::{
    BaseEntries, BaseEntry, FunctionEntries, FunctionEntry, Name, Unit, VariableEntries,
    VariableEntry,
};
use std::alloc::{AllocError, Global};
use std::test::Fail;
use type_nodes::shape::{Member, Members, Shape};
use typed_unit::constants::standard_numbers;
use typed_unit::content::{
    Declared, Inner, Inside, Subprogram, Subprograms, TypedFunction, TypedFunctions, TypedUnit,
    TypedVariable,
};
use typed_unit::laws::{references_are_within, types_are_told, variables_have_types};
use typed_unit::plain::{plain_types, plain_unit};
use typed_unit::tree::tree_of;

/// Shapes, in order.
type Shapes = List<Shape>;

/// The abbreviations of a unit with a structure that points to itself, and a variable that points to it.
static LIST_ABBREVIATIONS: &[u8] = &[
    0x01, 0x11, 0x01, 0x25, 0x08, 0x13, 0x05, 0x03, 0x08, 0x1b, 0x08, 0x10, 0x17, 0x11, 0x01, 0x12,
    0x06, 0x8c, 0x01, 0x17, 0x74, 0x17, 0x00, 0x00, 0x02, 0x24, 0x00, 0x03, 0x08, 0x0b, 0x0b, 0x3e,
    0x0b, 0x00, 0x00, 0x03, 0x13, 0x01, 0x03, 0x08, 0x0b, 0x0f, 0x00, 0x00, 0x04, 0x0d, 0x00, 0x03,
    0x08, 0x49, 0x13, 0x38, 0x0f, 0x00, 0x00, 0x05, 0x0f, 0x00, 0x0b, 0x0b, 0x49, 0x13, 0x00, 0x00,
    0x06, 0x2e, 0x01, 0x03, 0x08, 0x3a, 0x0f, 0x3b, 0x0f, 0x3f, 0x0c, 0x27, 0x0c, 0x11, 0x01, 0x12,
    0x06, 0x00, 0x00, 0x07, 0x05, 0x00, 0x03, 0x08, 0x3a, 0x0f, 0x3b, 0x0f, 0x49, 0x13, 0x00, 0x00,
    0x08, 0x34, 0x00, 0x03, 0x08, 0x3a, 0x0f, 0x3b, 0x0f, 0x49, 0x13, 0x00, 0x00, 0x09, 0x34, 0x00,
    0x03, 0x08, 0x3a, 0x0f, 0x3b, 0x0f, 0x49, 0x13, 0x02, 0x22, 0x00, 0x00, 0x00,
];

fn name(alloc: Global, bytes: &[u8]) -> Result<Name, AllocError> {
    List::from_slice(alloc, bytes)
}

/// Where the function and its variables are declared.
fn at(line: u32) -> Option<Declared> {
    Some(Declared { file: 0, line })
}

/// A base type.
fn base_types(alloc: Global) -> Result<Shapes, AllocError> {
    let mut types = Shapes::new(alloc);
    types.push(Shape::Base(name(alloc, b"long")?, 8, 5))?;
    Ok(types)
}

/// A member of a structure.
fn member(alloc: Global, bytes: &[u8], base: u32, offset: u64) -> Result<Member, AllocError> {
    Ok(Member {
        name: name(alloc, bytes)?,
        base,
        offset,
        size: 64,
        bit_field: false,
    })
}

/// A base type, a structure that points to itself, and the pointer.
fn list_types(alloc: Global) -> Result<Shapes, AllocError> {
    let mut members = Members::new(alloc);
    members.push(member(alloc, b"v", 0, 0)?)?;
    members.push(member(alloc, b"p", 2, 64)?)?;
    let mut types = base_types(alloc)?;
    types.push(Shape::Record(0x13, name(alloc, b"n")?, 16, members))?;
    types.push(Shape::Pointer(0x0f, Some(1)))?;
    Ok(types)
}

/// A parameter or a variable.
fn variable(
    alloc: Global,
    bytes: &[u8],
    argument: bool,
    line: u32,
    base: Option<u32>,
    list: Option<u64>,
) -> Result<Inner, AllocError> {
    Ok(Inner::Variable(TypedVariable {
        name: name(alloc, bytes)?,
        argument,
        declared: at(line),
        base,
        list,
    }))
}

/// A parameter, a variable, and a variable of a type with a location.
fn inside(alloc: Global, base: Option<u32>) -> Result<Inside, AllocError> {
    let mut inside = Inside::new(alloc);
    inside.push(variable(alloc, b"a", true, 1, Some(0), None)?)?;
    inside.push(variable(alloc, b"v", false, 2, Some(0), None)?)?;
    inside.push(variable(alloc, b"q", false, 2, base, Some(0))?)?;
    Ok(inside)
}

/// A function of one word.
fn function(alloc: Global, base: Option<u32>) -> Result<TypedFunction, AllocError> {
    Ok(TypedFunction {
        subprogram: Subprogram {
            name: name(alloc, b"f")?,
            linkage_name: Name::new(alloc),
            declared: at(1),
            external: true,
            prototyped: false,
            signature: None,
        },
        lo: 0,
        len: 4,
        inside: inside(alloc, base)?,
    })
}

/// A unit of this function, whose last variable has a type.
fn unit(alloc: Global, base: Option<u32>) -> Result<TypedUnit, AllocError> {
    let mut functions = TypedFunctions::new(alloc);
    functions.push(function(alloc, base)?)?;
    Ok(TypedUnit {
        language: 0x0c,
        name: name(alloc, b"t.c")?,
        dir: name(alloc, b"/d")?,
        text_len: 4,
        abstracts: Subprograms::new(alloc),
        functions,
        frame_base: false,
        ranges: true,
    })
}

/// The bytes of the section of abbreviations of a tree.
fn abbreviation_bytes(alloc: Global, tree: &[TreeItem]) -> Result<Bytes, AllocError> {
    let declared = abbreviations_of(alloc, tree)?;
    write_abbreviations(alloc, declared.as_slice())
}

/// The size of a tree's entries in bytes.
fn size_of(alloc: Global, tree: &[TreeItem]) -> Result<Option<u32>, AllocError> {
    let declared = abbreviations_of(alloc, tree)?;
    Ok(entries_size(declared.as_slice(), tree))
}

/// Whether the unit with a list has these abbreviations, and entries of 139 bytes.
fn is_list_unit(alloc: Global) -> Result<bool, AllocError> {
    let types = list_types(alloc)?;
    if types.len() > 100 {
        return Ok(false);
    }
    let unit = unit(alloc, Some(2))?;
    let tree = tree_of(alloc, types, &unit)?;
    let section = abbreviation_bytes(alloc, tree.as_slice())?;
    if section.as_slice() != LIST_ABBREVIATIONS {
        return Ok(false);
    }
    Ok(size_of(alloc, tree.as_slice())? == Some(139))
}

/// Whether the entries of the unit with an unknown type have 123 bytes.
fn is_unknown_unit(alloc: Global) -> Result<bool, AllocError> {
    let types = base_types(alloc)?;
    if types.len() > 100 {
        return Ok(false);
    }
    let unit = unit(alloc, Some(7))?;
    let tree = tree_of(alloc, types, &unit)?;
    Ok(size_of(alloc, tree.as_slice())? == Some(123))
}

/// A unit of a function with a variable whose type isn't known.
fn named_unit(alloc: Global) -> Result<Unit, AllocError> {
    let mut types = BaseEntries::new(alloc);
    types.push(BaseEntry {
        name: name(alloc, b"long")?,
        size: 8,
        encoding: 5,
    })?;
    let mut variables = VariableEntries::new(alloc);
    variables.push(VariableEntry {
        name: name(alloc, b"v")?,
        argument: false,
        base: None,
        list: 0,
    })?;
    let mut functions = FunctionEntries::new(alloc);
    functions.push(FunctionEntry {
        name: name(alloc, b"f")?,
        lo: 0,
        len: 4,
        variables,
    })?;
    Ok(Unit {
        name: name(alloc, b"t.c")?,
        dir: name(alloc, b"/d")?,
        text_len: 4,
        types,
        functions,
    })
}

/// The items of that unit's tree: itself, the unknown type, the known one, the function and its variable, and two ends.
fn is_named_unit(alloc: Global) -> Result<bool, AllocError> {
    let named = named_unit(alloc)?;
    let types = plain_types(alloc, &named)?;
    if types.len() > 100 {
        return Ok(false);
    }
    let unit = plain_unit(alloc, true, &named)?;
    let tree = tree_of(alloc, types, &unit)?;
    Ok(tree.len() == 7)
}

#[test]
fn units_have_sections(rt: HostRuntime) -> Result<(), Fail> {
    standard_numbers();
    references_are_within();
    variables_have_types();
    types_are_told();
    assert!(rt; is_list_unit(rt.alloc())?);
    assert!(rt; is_unknown_unit(rt.alloc())?);
    assert!(rt; is_named_unit(rt.alloc())?);
    Ok(())
}
