//! A unit whose types are base types alone, and whose functions and variables are known by their names.

ghost use Rattle.std.specs.Prelude.{◌≡◌, map, IfOk};
ghost use Rattle.typed_unit.specs.Plain;

use crate::content::{
    Inner, Inside, Subprogram, Subprograms, TypedFunction, TypedFunctions, TypedUnit, TypedVariable,
};
use base_list::List;
use dwarf_info::constants::DW_LANG_C99;
use dwarf_info::unit::{BaseEntry, FunctionEntry, Name, Unit, VariableEntry};
use std::alloc::{AllocError, Global};
use type_nodes::shape::Shape;

/// The types of a unit. The error is out of memory.
pub fn plain_types(alloc: Global, unit: &Unit) -> Result<List<Shape>, AllocError>
    ensures { IfOk result (λ types. types ≡ Plain.plain_types unit.now) }
{
    shapes(alloc, unit.types.as_slice())
}

/// Base types.
fn shapes(alloc: Global, entries: &[BaseEntry]) -> Result<List<Shape>, AllocError>
    ensures { IfOk result (λ types. types ≡ map Plain.plain_type entries.now) }
{
    let mut types = List::new(alloc);
    for entry in entries {
        let name = entry.name.copy()?;
        types.push(Shape::Base(name, entry.size, entry.encoding))?;
    }
    Ok(types)
}

/// What a unit tells but for its types. The error is out of memory.
pub fn plain_unit(alloc: Global, frame_base: bool, unit: &Unit) -> Result<TypedUnit, AllocError>
    ensures { IfOk result (λ made. made ≡ Plain.plain_unit frame_base unit.now) }
{
    let name = unit.name.copy()?;
    let dir = unit.dir.copy()?;
    let functions = functions(alloc, unit.functions.as_slice())?;
    Ok(TypedUnit {
        language: DW_LANG_C99,
        name,
        dir,
        text_len: unit.text_len,
        abstracts: Subprograms::new(alloc),
        functions,
        frame_base,
        ranges: true,
    })
}

/// Functions by their names.
fn functions(alloc: Global, entries: &[FunctionEntry]) -> Result<TypedFunctions, AllocError>
    ensures { IfOk result (λ functions. functions ≡ map Plain.plain_function entries.now) }
{
    let mut functions = TypedFunctions::new(alloc);
    for entry in entries {
        functions.push(plain_function(alloc, entry)?)?;
    }
    Ok(functions)
}

/// A function by its name. The error is out of memory.
pub fn plain_function(alloc: Global, entry: &FunctionEntry) -> Result<TypedFunction, AllocError>
    ensures { IfOk result (λ function. function ≡ Plain.plain_function entry.now) }
{
    let subprogram = plain_subprogram(alloc, &entry.name)?;
    let inside = variables(alloc, entry.variables.as_slice())?;
    Ok(TypedFunction {
        subprogram,
        lo: entry.lo,
        len: entry.len,
        inside,
    })
}

/// A function that other units can name, by its name. The error is out of memory.
pub fn plain_subprogram(alloc: Global, name: &Name) -> Result<Subprogram, AllocError>
    ensures { IfOk result (λ subprogram. subprogram ≡ Plain.plain_subprogram name.now) }
{
    Ok(Subprogram {
        name: name.copy()?,
        linkage_name: List::new(alloc),
        declared: None,
        external: true,
        prototyped: false,
        signature: None,
    })
}

/// Variables by their names.
fn variables(alloc: Global, entries: &[VariableEntry]) -> Result<Inside, AllocError>
    ensures { IfOk result (λ inside. inside ≡ map Plain.plain_variable entries.now) }
{
    let mut inside = Inside::new(alloc);
    for entry in entries {
        inside.push(Inner::Variable(variable(entry)?))?;
    }
    Ok(inside)
}

/// A variable by its name.
fn variable(entry: &VariableEntry) -> Result<TypedVariable, AllocError>
    ensures { IfOk result (λ v. v ≡ Plain.plain_content entry.now) }
{
    Ok(TypedVariable {
        name: entry.name.copy()?,
        argument: entry.argument,
        declared: None,
        base: entry.base,
        list: Some(u64::from(entry.list)),
    })
}
