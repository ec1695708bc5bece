//! The section of abbreviations, written.

ghost use Rattle.std.specs.Prelude.{◌≡◌, ◌++◌, OnOk, IfOk};
ghost use Rattle.std.specs.List.{flat_map};
ghost use Rattle.dwarf_info.specs.Kinds;
ghost use Rattle.dwarf_info.specs.Kinds.{form_number, abbreviation, abbreviations, inlined_abbreviations};

use crate::constants::*;
use crate::kind::{Attribute, DieKind, Form};
use base_list::List;
use dwarf_base::constants::{DW_FORM_string, DW_FORM_udata};
use dwarf_base::leb::{Leb, uleb};
use std::alloc::{AllocError, Global};

/// Bytes, in order.
pub type Bytes = List<u8>;

static COMPILE_UNIT: [Attribute; 7] = [
    Attribute {
        name: DW_AT_language,
        form: Form::Data2,
    },
    Attribute {
        name: DW_AT_name,
        form: Form::Text,
    },
    Attribute {
        name: DW_AT_comp_dir,
        form: Form::Text,
    },
    Attribute {
        name: DW_AT_stmt_list,
        form: Form::SectionOffset,
    },
    Attribute {
        name: DW_AT_low_pc,
        form: Form::Address,
    },
    Attribute {
        name: DW_AT_high_pc,
        form: Form::Data4,
    },
    Attribute {
        name: DW_AT_loclists_base,
        form: Form::SectionOffset,
    },
];

static SUBPROGRAM: [Attribute; 3] = [
    Attribute {
        name: DW_AT_name,
        form: Form::Text,
    },
    Attribute {
        name: DW_AT_low_pc,
        form: Form::Address,
    },
    Attribute {
        name: DW_AT_high_pc,
        form: Form::Data4,
    },
];

static TYPED: [Attribute; 3] = [
    Attribute {
        name: DW_AT_name,
        form: Form::Text,
    },
    Attribute {
        name: DW_AT_type,
        form: Form::Reference,
    },
    Attribute {
        name: DW_AT_location,
        form: Form::LocationList,
    },
];

static UNTYPED: [Attribute; 2] = [
    Attribute {
        name: DW_AT_name,
        form: Form::Text,
    },
    Attribute {
        name: DW_AT_location,
        form: Form::LocationList,
    },
];

static BASE_TYPE: [Attribute; 3] = [
    Attribute {
        name: DW_AT_name,
        form: Form::Text,
    },
    Attribute {
        name: DW_AT_byte_size,
        form: Form::Data1,
    },
    Attribute {
        name: DW_AT_encoding,
        form: Form::Data1,
    },
];

/// The section `.debug_abbrev`. The error is out of memory.
#[tactic(auto, unfolding(crate::specs::Kinds::abbreviations))]
pub fn write_abbrev(alloc: Global) -> Result<Bytes, AllocError>
    ensures { IfOk result (λ bytes. bytes ≡ abbreviations) }
{
    let mut out = Vec::new(alloc);
    push_abbreviation(&mut out, DieKind::CompileUnit)?;
    push_abbreviation(&mut out, DieKind::Subprogram)?;
    push_abbreviation(&mut out, DieKind::TypedParameter)?;
    push_abbreviation(&mut out, DieKind::Parameter)?;
    push_abbreviation(&mut out, DieKind::TypedVariable)?;
    push_abbreviation(&mut out, DieKind::Variable)?;
    push_abbreviation(&mut out, DieKind::BaseType)?;
    out.push(0)?;
    Ok(List::from(out))
}

static UNIT_WITH_RANGES: [Attribute; 8] = [
    Attribute {
        name: DW_AT_language,
        form: Form::Data2,
    },
    Attribute {
        name: DW_AT_name,
        form: Form::Text,
    },
    Attribute {
        name: DW_AT_comp_dir,
        form: Form::Text,
    },
    Attribute {
        name: DW_AT_stmt_list,
        form: Form::SectionOffset,
    },
    Attribute {
        name: DW_AT_low_pc,
        form: Form::Address,
    },
    Attribute {
        name: DW_AT_high_pc,
        form: Form::Data4,
    },
    Attribute {
        name: DW_AT_loclists_base,
        form: Form::SectionOffset,
    },
    Attribute {
        name: DW_AT_rnglists_base,
        form: Form::SectionOffset,
    },
];

static ABSTRACT_SUBPROGRAM: [Attribute; 2] = [
    Attribute {
        name: DW_AT_name,
        form: Form::Text,
    },
    Attribute {
        name: DW_AT_inline,
        form: Form::Data1,
    },
];

static INLINED_SUBROUTINE: [Attribute; 5] = [
    Attribute {
        name: DW_AT_abstract_origin,
        form: Form::Reference,
    },
    Attribute {
        name: DW_AT_ranges,
        form: Form::RangeList,
    },
    Attribute {
        name: DW_AT_call_file,
        form: Form::Unsigned,
    },
    Attribute {
        name: DW_AT_call_line,
        form: Form::Unsigned,
    },
    Attribute {
        name: DW_AT_call_column,
        form: Form::Unsigned,
    },
];

/// The section `.debug_abbrev` of entries with inlined functions. The error is out of memory.
#[tactic(auto, unfolding(crate::specs::Kinds::inlined_abbreviations))]
pub fn write_inlined_abbrev(alloc: Global) -> Result<Bytes, AllocError>
    ensures { IfOk result (λ bytes. bytes ≡ inlined_abbreviations) }
{
    let mut out = Vec::new(alloc);
    push_abbreviation(&mut out, DieKind::UnitWithRanges)?;
    push_abbreviation(&mut out, DieKind::Subprogram)?;
    push_abbreviation(&mut out, DieKind::TypedParameter)?;
    push_abbreviation(&mut out, DieKind::Parameter)?;
    push_abbreviation(&mut out, DieKind::TypedVariable)?;
    push_abbreviation(&mut out, DieKind::Variable)?;
    push_abbreviation(&mut out, DieKind::BaseType)?;
    push_abbreviation(&mut out, DieKind::AbstractSubprogram)?;
    push_abbreviation(&mut out, DieKind::InlinedSubroutine)?;
    out.push(0)?;
    Ok(List::from(out))
}

/// Appends the abbreviation of a kind.
#[tactic(auto, unfolding(crate::specs::Kinds::abbreviation))]
fn push_abbreviation(out: &mut Vec<u8>, kind: DieKind) -> Result<(), AllocError>
    ensures { OnOk result (out.new.items ≡ out.old.items ++ abbreviation kind) }
{
    push_leb(out, &uleb(code(kind) as u64))?;
    push_leb(out, &uleb(tag(kind) as u64))?;
    out.push(children(kind))?;
    push_attributes(out, attributes(kind))?;
    out.push(0)?;
    out.push(0)?;
    Ok(())
}

/// Appends the attributes of an abbreviation.
fn push_attributes(out: &mut Vec<u8>, attributes: &[Attribute]) -> Result<(), AllocError>
    ensures { OnOk result (out.new.items ≡ out.old.items ++ flat_map Kinds.attribute attributes.now) }
{
    for attribute in attributes {
        push_leb(out, &uleb(attribute.name as u64))?;
        push_leb(out, &uleb(form_number_of(attribute.form) as u64))?;
    }
    Ok(())
}

/// The code of a kind's abbreviation.
pub fn code(kind: DieKind) -> u8
    ensures { result ≡ Kinds.code kind }
{
    match kind {
        DieKind::CompileUnit => 1,
        DieKind::Subprogram => 2,
        DieKind::TypedParameter => 3,
        DieKind::Parameter => 4,
        DieKind::TypedVariable => 5,
        DieKind::Variable => 6,
        DieKind::BaseType => 7,
        DieKind::UnitWithRanges => 1,
        DieKind::AbstractSubprogram => 8,
        DieKind::InlinedSubroutine => 9,
    }
}

/// The tag of a kind (DWARF 5 section 7.5.3).
fn tag(kind: DieKind) -> u8
    ensures { result ≡ Kinds.tag kind }
{
    match kind {
        DieKind::CompileUnit | DieKind::UnitWithRanges => DW_TAG_compile_unit,
        DieKind::Subprogram | DieKind::AbstractSubprogram => DW_TAG_subprogram,
        DieKind::InlinedSubroutine => DW_TAG_inlined_subroutine,
        DieKind::TypedParameter | DieKind::Parameter => DW_TAG_formal_parameter,
        DieKind::TypedVariable | DieKind::Variable => DW_TAG_variable,
        DieKind::BaseType => DW_TAG_base_type,
    }
}

/// Whether entries of a kind have children (DWARF 5 section 7.5.3).
fn children(kind: DieKind) -> u8
    ensures { result ≡ Kinds.children kind }
{
    match kind {
        DieKind::CompileUnit
        | DieKind::UnitWithRanges
        | DieKind::Subprogram
        | DieKind::InlinedSubroutine => DW_CHILDREN_yes,
        DieKind::TypedParameter
        | DieKind::Parameter
        | DieKind::TypedVariable
        | DieKind::Variable
        | DieKind::BaseType
        | DieKind::AbstractSubprogram => DW_CHILDREN_no,
    }
}

/// The attributes of a kind, in order.
fn attributes(kind: DieKind) -> &'static [Attribute]
    ensures { result.now ≡ Kinds.attributes kind }
{
    match kind {
        DieKind::CompileUnit => &COMPILE_UNIT,
        DieKind::Subprogram => &SUBPROGRAM,
        DieKind::TypedParameter | DieKind::TypedVariable => &TYPED,
        DieKind::Parameter | DieKind::Variable => &UNTYPED,
        DieKind::BaseType => &BASE_TYPE,
        DieKind::UnitWithRanges => &UNIT_WITH_RANGES,
        DieKind::AbstractSubprogram => &ABSTRACT_SUBPROGRAM,
        DieKind::InlinedSubroutine => &INLINED_SUBROUTINE,
    }
}

/// The number of a form (DWARF 5 section 7.5.6).
fn form_number_of(form: Form) -> u8
    ensures { result ≡ form_number form }
{
    match form {
        Form::Address => DW_FORM_addr,
        Form::Data1 => DW_FORM_data1,
        Form::Data2 => DW_FORM_data2,
        Form::Data4 => DW_FORM_data4,
        Form::Text => DW_FORM_string,
        Form::Reference => DW_FORM_ref4,
        Form::SectionOffset => DW_FORM_sec_offset,
        Form::LocationList => DW_FORM_loclistx,
        Form::RangeList => DW_FORM_rnglistx,
        Form::Unsigned => DW_FORM_udata,
    }
}

/// Appends a LEB128 number.
pub fn push_leb(out: &mut Vec<u8>, number: &Leb) -> Result<(), AllocError>
    ensures { OnOk result (out.new.items ≡ out.old.items ++ number.now) }
{
    out.extend_from_slice(number.as_slice())
}
