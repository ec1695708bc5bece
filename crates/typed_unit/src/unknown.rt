//! Whether the unknown type is used.

ghost use Rattle.std.specs.Prelude.{◌≡◌};
ghost use Rattle.std.specs.List.{list_any};
ghost use Rattle.typed_unit.specs.Unknown;
ghost use Rattle.typed_unit.specs.Unit;

use crate::content::{Inner, Subprogram, TypedFunction, TypedUnit};
use crate::entries::result_type;
use type_entries::all_types::types_name_unknown;
use type_entries::table::{TypeTable, is_known};

/// Whether a parameter, a variable or a result has the unknown type.
pub fn uses_unknown(t: &TypeTable, unit: &TypedUnit) -> bool
    ensures { result ≡ Unit.uses_unknown t.now unit.now }
{
    types_name_unknown(t)
        || subprograms_name_unknown(t, unit.abstracts.as_slice())
        || functions_name_unknown(t, unit.functions.as_slice())
}

/// Whether the result of a function has it.
fn result_names_unknown(t: &TypeTable, index: Option<u32>) -> bool
    ensures { result ≡ Unknown.result_names_unknown t.now.stands.items t.now.sizes.items index }
{
    match index {
        None => false,
        Some(_) => !is_known(t, index),
    }
}

/// Whether the result of a function has it, by the function as it is declared.
fn subprogram_names_unknown(t: &TypeTable, s: &Subprogram) -> bool
    ensures { result ≡ Unknown.subprogram_names_unknown t.now.types t.now.stands.items t.now.sizes.items s.now }
{
    result_names_unknown(t, result_type(t, s.signature))
}

/// Whether the result of one of these functions has it.
fn subprograms_name_unknown(t: &TypeTable, subprograms: &[Subprogram]) -> bool
    ensures { result ≡ list_any (Unknown.subprogram_names_unknown t.now.types t.now.stands.items t.now.sizes.items)
        subprograms.now }
{
    for s in subprograms {
        if subprogram_names_unknown(t, s) {
            return true;
        }
    }
    false
}

/// Whether a variable has it.
fn inner_names_unknown(t: &TypeTable, item: &Inner) -> bool
    ensures { result ≡ Unknown.inner_names_unknown t.now.stands.items t.now.sizes.items item.now }
{
    match item {
        Inner::Variable(v) => !is_known(t, v.base),
        Inner::Block(_) => false,
        Inner::Inlined(_) => false,
        Inner::End => false,
    }
}

/// Whether a variable inside a function has it.
fn inside_names_unknown(t: &TypeTable, inside: &[Inner]) -> bool
    ensures { result ≡ list_any (Unknown.inner_names_unknown t.now.stands.items t.now.sizes.items) inside.now }
{
    for item in inside {
        if inner_names_unknown(t, item) {
            return true;
        }
    }
    false
}

/// Whether a function's result or a variable inside it has it.
fn function_names_unknown(t: &TypeTable, f: &TypedFunction) -> bool
    ensures { result ≡ Unknown.function_names_unknown t.now.types t.now.stands.items t.now.sizes.items f.now }
{
    subprogram_names_unknown(t, &f.subprogram) || inside_names_unknown(t, f.inside.as_slice())
}

/// Whether the result of one of these functions or a variable inside it has it.
fn functions_name_unknown(t: &TypeTable, functions: &[TypedFunction]) -> bool
    ensures { result ≡ list_any (Unknown.function_names_unknown t.now.types t.now.stands.items t.now.sizes.items)
        functions.now }
{
    for f in functions {
        if function_names_unknown(t, f) {
            return true;
        }
    }
    false
}
