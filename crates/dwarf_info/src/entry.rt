//! Single entries, written.

ghost use Rattle.std.specs.Prelude.{◌≡◌, ◌+◌, ◌<◌, ◌++◌, ◌∷◌, [], ◌==◌, length, OnOk};
ghost use Rattle.std.specs.Int.{w16, w32, w64, to_le_bytes};
ghost use Rattle.dwarf_base.specs.Leb.{uleb_of};
ghost use Rattle.dwarf_info.specs.declared.kind.DieKind.TheVariants.{TypedParameter, Parameter, TypedVariable};
ghost use Rattle.dwarf_info.specs.declared.kind.DieKind.TheVariants.{Variable};
ghost use Rattle.dwarf_info.specs.Kinds;
ghost use Rattle.dwarf_info.specs.Entries.{named, entry, base_type, variable, subprogram};
ghost use Rattle.dwarf_info.specs.Entries.{compile_unit, HasType};
ghost use Rattle.dwarf_info.specs.steps.Parts.{in_table};

use crate::abbreviation::{code, push_leb};
use crate::constants::*;
use crate::kind::DieKind;
use crate::unit::{BaseEntry, FunctionEntry, Unit, VariableEntry};
use dwarf_base::leb::uleb;
use std::alloc::AllocError;

/// Appends the entry of a unit, without its children.
#[tactic(auto, unfolding(crate::specs::Entries::entry))]
pub fn push_compile_unit(out: &mut Vec<u8>, u: &Unit) -> Result<(), AllocError>
    ensures { OnOk result (out.new.items ≡ out.old.items ++ entry (compile_unit u.now)) }
{
    push_code(out, DieKind::CompileUnit)?;
    push_u16(out, DW_LANG_C99)?;
    push_text(out, u.name.as_slice())?;
    push_text(out, u.dir.as_slice())?;
    push_u32(out, 0)?;
    push_u64(out, 0)?;
    push_u32(out, u.text_len)?;
    push_u32(out, LOCLISTS_BASE)
}

/// Appends the entry of a type.
#[tactic(auto, unfolding(crate::specs::Entries::entry))]
pub fn push_base_type(out: &mut Vec<u8>, b: &BaseEntry) -> Result<(), AllocError>
    ensures { OnOk result (out.new.items ≡ out.old.items ++ entry (base_type b.now)) }
{
    push_code(out, DieKind::BaseType)?;
    push_text(out, b.name.as_slice())?;
    out.push(b.size)?;
    out.push(b.encoding)?;
    Ok(())
}

/// Appends the entry of a function, without its children.
#[tactic(auto, unfolding(crate::specs::Entries::entry))]
pub fn push_subprogram(out: &mut Vec<u8>, f: &FunctionEntry) -> Result<(), AllocError>
    ensures { OnOk result (out.new.items ≡ out.old.items ++ entry (subprogram f.now)) }
{
    push_code(out, DieKind::Subprogram)?;
    push_text(out, f.name.as_slice())?;
    push_u64(out, f.lo)?;
    push_u32(out, f.len)
}

/// Appends the entry of a parameter or variable. The table has the offsets of the types' entries.
pub fn push_variable(
    out: &mut Vec<u8>,
    offsets: &[u32],
    v: &VariableEntry,
) -> Result<(), AllocError>
    requires { HasType (length offsets.now) v.now }
    ensures { OnOk result (out.new.items ≡ out.old.items ++ entry (variable (in_table offsets.now) v.now)) }
{
    let name = v.name.as_slice();
    match (v.argument, v.base) {
        (true, Some(base)) => { push_typed_parameter(out, name, offsets[base as usize], v.list) }
        (true, None) => push_parameter(out, name, v.list),
        (false, Some(base)) => push_typed_variable(out, name, offsets[base as usize], v.list),
        (false, None) => push_plain_variable(out, name, v.list),
    }
}

/// Appends the entry of a parameter with a type.
#[tactic(auto, unfolding(crate::specs::Entries::entry))]
fn push_typed_parameter(
    out: &mut Vec<u8>,
    name: &[u8],
    offset: u32,
    list: u32,
) -> Result<(), AllocError>
    ensures { OnOk result (out.new.items ≡ out.old.items
        ++ entry (record { kind = TypedParameter; given = (name.now, (offset, (list, tt))) })) }
{
    push_code(out, DieKind::TypedParameter)?;
    push_text(out, name)?;
    push_u32(out, offset)?;
    push_leb(out, &uleb(list as u64))
}

/// Appends the entry of a variable with a type.
#[tactic(auto, unfolding(crate::specs::Entries::entry))]
fn push_typed_variable(
    out: &mut Vec<u8>,
    name: &[u8],
    offset: u32,
    list: u32,
) -> Result<(), AllocError>
    ensures { OnOk result (out.new.items ≡ out.old.items
        ++ entry (record { kind = TypedVariable; given = (name.now, (offset, (list, tt))) })) }
{
    push_code(out, DieKind::TypedVariable)?;
    push_text(out, name)?;
    push_u32(out, offset)?;
    push_leb(out, &uleb(list as u64))
}

/// Appends the entry of a parameter without a type.
#[tactic(auto, unfolding(crate::specs::Entries::entry))]
fn push_parameter(out: &mut Vec<u8>, name: &[u8], list: u32) -> Result<(), AllocError>
    ensures { OnOk result (out.new.items ≡ out.old.items
        ++ entry (record { kind = Parameter; given = (name.now, (list, tt)) })) }
{
    push_code(out, DieKind::Parameter)?;
    push_text(out, name)?;
    push_leb(out, &uleb(list as u64))
}

/// Appends the entry of a variable without a type.
#[tactic(auto, unfolding(crate::specs::Entries::entry))]
fn push_plain_variable(out: &mut Vec<u8>, name: &[u8], list: u32) -> Result<(), AllocError>
    ensures { OnOk result (out.new.items ≡ out.old.items
        ++ entry (record { kind = Variable; given = (name.now, (list, tt)) })) }
{
    push_code(out, DieKind::Variable)?;
    push_text(out, name)?;
    push_leb(out, &uleb(list as u64))
}

/// Appends the code of the abbreviation of a kind.
pub fn push_code(out: &mut Vec<u8>, kind: DieKind) -> Result<(), AllocError>
    ensures { OnOk result (out.new.items ≡ out.old.items ++ uleb_of (Kinds.code kind)) }
{
    push_leb(out, &uleb(code(kind) as u64))
}

/// Appends a string: a name up to its first zero byte, and a zero byte.
pub fn push_text(out: &mut Vec<u8>, name: &[u8]) -> Result<(), AllocError>
    ensures { OnOk result (out.new.items ≡ out.old.items ++ (named name.now ++ 0 ∷ [])) }
{
    out.extend_from_slice(text_of(name))?;
    out.push(0)?;
    Ok(())
}

/// A name up to its first zero byte.
pub fn text_of(name: &[u8]) -> &[u8]
    ensures { result.now ≡ named name.now }
{
    for (i, byte) in name.iter().enumerate() {
        if *byte == 0 {
            return &name[..i];
        }
    }
    name
}

/// Appends a number of two bytes.
pub fn push_u16(out: &mut Vec<u8>, n: u16) -> Result<(), AllocError>
    ensures { OnOk result (out.new.items ≡ out.old.items ++ to_le_bytes w16 n) }
{
    out.extend_from_slice(&n.to_le_bytes())
}

/// Appends a number of four bytes.
pub fn push_u32(out: &mut Vec<u8>, n: u32) -> Result<(), AllocError>
    ensures { OnOk result (out.new.items ≡ out.old.items ++ to_le_bytes w32 n) }
{
    out.extend_from_slice(&n.to_le_bytes())
}

/// Appends a number of eight bytes.
pub fn push_u64(out: &mut Vec<u8>, n: u64) -> Result<(), AllocError>
    ensures { OnOk result (out.new.items ≡ out.old.items ++ to_le_bytes w64 n) }
{
    out.extend_from_slice(&n.to_le_bytes())
}
