//! The writer of the section of a unit with inlined functions.

ghost use Rattle.std.specs.Prelude.{◌≡◌, ◌+◌, ◌^◌, ◌<◌, ◌≤◌, ◌↔◌, ◌++◌, [], true, false, length, All, OnOk, IfOk};
ghost use Rattle.std.specs.Prelude.{IsNone, IfSome};
ghost use Rattle.std.specs.List.{flat_map};
ghost use Rattle.dwarf_base.specs.Limits;
ghost use Rattle.dwarf_base.specs.Size.{capped};
ghost use Rattle.dwarf_info.specs.Entries.{entry};
ghost use Rattle.dwarf_info.specs.Inlined.{unit_with_ranges, abstract_subprogram, inlined_functions};
ghost use Rattle.dwarf_info.specs.Inlined.{inlined_spelling, IsInlinedFunction};
ghost use Rattle.dwarf_info.specs.steps.Parts.{in_table, type_bytes};
ghost use Rattle.dwarf_info.specs.steps.Front.{abstract_bytes, AreOrigins, HasLength};

use crate::abbreviation::Bytes;
use crate::calls::push_calls;
use crate::constants::*;
use crate::entry::{push_code, push_subprogram, push_text, push_u16, push_u32, push_u64};
use crate::inlined::{InlinedFunction, InlinedUnit};
use crate::kind::DieKind;
use crate::size::{code_len, text_len, types_len};
use crate::unit::Name;
use crate::write::{push_header, push_types, push_variables};
use base_list::List;
use dwarf_base::limits::SECTION_LIMIT;
use std::alloc::{AllocError, Global};

/// The bytes of the unit's header.
const HEADER: usize = 12;
/// The bytes of the length field, which it doesn't count.
const LENGTH: usize = 4;

/// The section `.debug_info` of a unit with inlined functions, and `None` if and only if it is 2^31 bytes or more. The
/// error is out of memory.
pub fn write_inlined_info(alloc: Global, u: &InlinedUnit) -> Result<Option<Bytes>, AllocError>
    // The type of each variable is there, the abstract entry of each call, and before it the call around it.
    requires { All (IsInlinedFunction (length u.now.types) (length u.now.abstracts)) u.now.functions }
    ensures none { IfOk result (λ o. IsNone o ↔ (2 ^ 31 ≤ length (inlined_spelling u.now))) }
    ensures bytes { IfOk result (λ o. IfSome o (λ bytes. bytes ≡ inlined_spelling u.now)) }
{
    if front_len(u) >= SECTION_LIMIT {
        return Ok(None);
    }
    let mut out = Vec::new(alloc);
    let mut offsets = Vec::new(alloc);
    let mut origins = Vec::new(alloc);
    push_header(&mut out, 0)?;
    push_unit(&mut out, u)?;
    push_types(&mut out, &mut offsets, u.types.as_slice())?;
    push_abstracts(&mut out, &mut origins, u.abstracts.as_slice())?;
    if !push_functions(alloc, &mut out, &offsets, &origins, u.functions.as_slice())? {
        return Ok(None);
    }
    out.push(0)?;
    with_length(alloc, out.as_slice())
}

/// A section with its length in its header, and `None` if and only if it is 2^31 bytes or more.
fn with_length(alloc: Global, section: &[u8]) -> Result<Option<Bytes>, AllocError>
    requires { 12 ≤ length section.now }
    ensures none { IfOk result (λ o. IsNone o ↔ (2 ^ 31 ≤ length section.now)) }
    ensures bytes { IfOk result (λ o. IfSome o (λ bytes. HasLength section.now bytes)) }
{
    if section.len() >= SECTION_LIMIT {
        return Ok(None);
    }
    let mut bytes = Vec::with_capacity(alloc, section.len())?;
    push_header(&mut bytes, (section.len() - LENGTH) as u32)?;
    bytes.extend_from_slice(&section[HEADER..])?;
    Ok(Some(List::from(bytes)))
}

/// The bytes of the header, the unit's entry, the types and the abstract entries.
fn front_len(u: &InlinedUnit) -> usize
    ensures { result ≡ capped (12 + length (entry (unit_with_ranges u.now)) + length (flat_map type_bytes u.now.types)
        + length (flat_map abstract_bytes u.now.abstracts)) }
{
    HEADER
        .saturating_add(unit_len(u))
        .saturating_add(types_len(u.types.as_slice()))
        .saturating_add(abstracts_len(u.abstracts.as_slice()))
}

/// The bytes of the entry of a unit, without its children.
#[tactic(auto, unfolding(crate::specs::Entries::entry))]
fn unit_len(u: &InlinedUnit) -> usize
    ensures { result ≡ capped (length (entry (unit_with_ranges u.now))) }
{
    (code_len(DieKind::UnitWithRanges) + 26)
        .saturating_add(text_len(u.name.as_slice()))
        .saturating_add(text_len(u.dir.as_slice()))
}

/// The bytes of abstract entries.
fn abstracts_len(names: &[Name]) -> usize
    ensures { result ≡ capped (length (flat_map abstract_bytes names.now)) }
{
    let mut len: usize = 0;
    for name in names {
        len = len.saturating_add(abstract_len(name));
    }
    len
}

/// The bytes of an abstract entry.
#[tactic(auto, unfolding(crate::specs::Entries::entry))]
fn abstract_len(name: &Name) -> usize
    ensures { result ≡ capped (length (abstract_bytes name.now)) }
{
    (code_len(DieKind::AbstractSubprogram) + 1).saturating_add(text_len(name.as_slice()))
}

/// Appends the entry of a unit, without its children.
#[tactic(auto, unfolding(crate::specs::Entries::entry))]
fn push_unit(out: &mut Vec<u8>, u: &InlinedUnit) -> Result<(), AllocError>
    ensures { OnOk result (out.new.items ≡ out.old.items ++ entry (unit_with_ranges u.now)) }
{
    push_code(out, DieKind::UnitWithRanges)?;
    push_u16(out, DW_LANG_C99)?;
    push_text(out, u.name.as_slice())?;
    push_text(out, u.dir.as_slice())?;
    push_u32(out, 0)?;
    push_u64(out, 0)?;
    push_u32(out, u.text_len)?;
    push_u32(out, LOCLISTS_BASE)?;
    push_u32(out, RNGLISTS_BASE)
}

/// Appends abstract entries, and notes the offset of each in a table.
fn push_abstracts(
    out: &mut Vec<u8>,
    origins: &mut Vec<u32>,
    names: &[Name],
) -> Result<(), AllocError>
    requires room { length out.old.items + length (flat_map abstract_bytes names.now) < 2 ^ 32 }
    requires empty { origins.old.items ≡ [] }
    ensures bytes { OnOk result (out.new.items ≡ out.old.items ++ flat_map abstract_bytes names.now) }
    ensures origins { OnOk result (AreOrigins (length out.old.items) names.now origins.new.items) }
{
    for name in names {
        origins.push(out.len() as u32)?;
        push_abstract(out, name)?;
    }
    Ok(())
}

/// Appends the abstract entry of a function that was inlined.
#[tactic(auto, unfolding(crate::specs::Entries::entry))]
fn push_abstract(out: &mut Vec<u8>, name: &Name) -> Result<(), AllocError>
    ensures { OnOk result (out.new.items ≡ out.old.items ++ entry (abstract_subprogram name.now)) }
{
    push_code(out, DieKind::AbstractSubprogram)?;
    push_text(out, name.as_slice())?;
    out.push(DW_INL_inlined)?;
    Ok(())
}

/// Appends functions, with their variables and calls. `false` if the section would be too large; the bytes are
/// incomplete then.
fn push_functions(
    alloc: Global,
    out: &mut Vec<u8>,
    offsets: &[u32],
    origins: &[u32],
    functions: &[InlinedFunction],
) -> Result<bool, AllocError>
    requires { All (IsInlinedFunction (length offsets.now) (length origins.now)) functions.now }
    ensures written { IfOk result (λ whole. whole ≡ true → out.new.items ≡ out.old.items
        ++ inlined_functions (in_table offsets.now) (in_table origins.now) 0 functions.now) }
    ensures large { IfOk result (λ whole. whole ≡ false → Limits.SECTION_LIMIT ≤ length out.old.items
        + length (inlined_functions (in_table offsets.now) (in_table origins.now) 0 functions.now)) }
{
    let mut first = 0;
    for function in functions {
        push_subprogram(out, &function.function)?;
        push_variables(out, offsets, function.function.variables.as_slice())?;
        let calls = function.calls.as_slice();
        if !push_calls(alloc, out, offsets, origins, first, calls)? {
            return Ok(false);
        }
        out.push(0)?;
        first += calls.len() as u64;
    }
    Ok(true)
}
