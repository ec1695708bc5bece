//! The size of a section in bytes.

ghost use Rattle.std.specs.Prelude.{◌≡◌, ◌+◌, ◌^◌, ◌≤◌, ◌↔◌, ℕ, length, IsNone, IfSome};
ghost use Rattle.std.specs.List.{flat_map};
ghost use Rattle.dwarf_base.specs.Leb.{uleb_of};
ghost use Rattle.dwarf_info.specs.Kinds;
ghost use Rattle.dwarf_info.specs.Entries.{named, entry, base_type, variable, subprogram, compile_unit, spelling};
ghost use Rattle.dwarf_info.specs.steps.Parts.{type_bytes, variable_bytes, function_bytes};
ghost use Rattle.dwarf_base.specs.Size.{capped};

use crate::abbreviation::code;
use crate::entry::text_of;
use crate::kind::DieKind;
use crate::unit::{BaseEntry, FunctionEntry, Unit, VariableEntry};
use dwarf_base::leb::uleb;
use dwarf_base::limits::SECTION_LIMIT;

/// The bytes of the unit's header.
const HEADER: usize = 12;

/// The size of a unit's section `.debug_info` in bytes, and `None` if and only if it is 2^31 or more. It takes no
/// memory.
pub fn info_size(u: &Unit) -> Option<u32>
    ensures none { IsNone result ↔ (2 ^ 31 ≤ length (spelling u.now)) }
    ensures size { IfSome result (λ size. size ≡ length (spelling u.now)) }
{
    let size = section_len(u);
    if size < SECTION_LIMIT {
        Some(size as u32)
    } else {
        None
    }
}

/// The bytes of the section.
pub fn section_len(u: &Unit) -> usize
    ensures { result ≡ capped (length (spelling u.now)) }
{
    (HEADER + 1)
        .saturating_add(compile_unit_len(u))
        .saturating_add(types_len(u.types.as_slice()))
        .saturating_add(functions_len(u.functions.as_slice()))
}

/// The bytes of the types.
pub fn types_len(types: &[BaseEntry]) -> usize
    ensures { result ≡ capped (length (flat_map type_bytes types.now)) }
{
    let mut len: usize = 0;
    for base in types {
        len = len.saturating_add(base_type_len(base));
    }
    len
}

/// The bytes of the functions, with their variables.
fn functions_len(functions: &[FunctionEntry]) -> usize
    ensures { (offset : ℕ → ℕ) → result ≡ capped (length (flat_map (function_bytes offset) functions.now)) }
{
    let mut len: usize = 0;
    for function in functions {
        len = len.saturating_add(function_len(function));
    }
    len
}

/// The bytes of a function, with its variables.
fn function_len(f: &FunctionEntry) -> usize
    ensures { (offset : ℕ → ℕ) → result ≡ capped (length (function_bytes offset f.now)) }
{
    subprogram_len(f)
        .saturating_add(variables_len(f.variables.as_slice()))
        .saturating_add(1)
}

/// The bytes of variables.
fn variables_len(variables: &[VariableEntry]) -> usize
    ensures { (offset : ℕ → ℕ) → result ≡ capped (length (flat_map (variable_bytes offset) variables.now)) }
{
    let mut len: usize = 0;
    for variable in variables {
        len = len.saturating_add(variable_len(variable));
    }
    len
}

/// The bytes of the entry of a unit, without its children.
#[tactic(auto, unfolding(crate::specs::Entries::entry))]
fn compile_unit_len(u: &Unit) -> usize
    ensures { result ≡ capped (length (entry (compile_unit u.now))) }
{
    (code_len(DieKind::CompileUnit) + 22)
        .saturating_add(text_len(u.name.as_slice()))
        .saturating_add(text_len(u.dir.as_slice()))
}

/// The bytes of the entry of a type.
#[tactic(auto, unfolding(crate::specs::Entries::entry))]
fn base_type_len(b: &BaseEntry) -> usize
    ensures { result ≡ capped (length (entry (base_type b.now))) }
{
    (code_len(DieKind::BaseType) + 2).saturating_add(text_len(b.name.as_slice()))
}

/// The bytes of the entry of a function, without its children.
#[tactic(auto, unfolding(crate::specs::Entries::entry))]
fn subprogram_len(f: &FunctionEntry) -> usize
    ensures { result ≡ capped (length (entry (subprogram f.now))) }
{
    (code_len(DieKind::Subprogram) + 12).saturating_add(text_len(f.name.as_slice()))
}

/// The bytes of the entry of a parameter or variable.
#[tactic(auto, unfolding(crate::specs::Entries::entry))]
fn variable_len(v: &VariableEntry) -> usize
    ensures { (offset : ℕ → ℕ) → result ≡ capped (length (entry (variable offset v.now))) }
{
    let name = text_len(v.name.as_slice());
    let list = uleb(v.list as u64).len();
    match (v.argument, v.base) {
        (true, Some(_)) => (code_len(DieKind::TypedParameter) + 4 + list).saturating_add(name),
        (true, None) => (code_len(DieKind::Parameter) + list).saturating_add(name),
        (false, Some(_)) => (code_len(DieKind::TypedVariable) + 4 + list).saturating_add(name),
        (false, None) => (code_len(DieKind::Variable) + list).saturating_add(name),
    }
}

/// The bytes of the code of a kind's abbreviation.
pub fn code_len(kind: DieKind) -> usize
    ensures exact { result ≡ length (uleb_of (Kinds.code kind)) }
    ensures within { result ≤ 10 }
{
    uleb(code(kind) as u64).len()
}

/// The bytes of a string: a name up to its first zero byte, and a zero byte.
pub fn text_len(name: &[u8]) -> usize
    ensures { result ≡ length (named name.now) + 1 }
{
    text_of(name).len() + 1
}
