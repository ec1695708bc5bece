//! The words of fields: tags of types, and languages and encodings by DWARF's codes, under the standard's names (DWARF
//! 5, sections 7.8 and 7.12).

ghost use Rattle.std.specs.Prelude.{◌≡◌};
ghost use Rattle.read_metadata.specs.Kind.{encoding_code};
ghost use Rattle.read_debug_nodes.specs.Codes.{derived_form, composite_form, language_code};

use crate::node::{CompositeForm, DerivedForm};

const DW_LANG_C89: u16 = 0x01;

const DW_LANG_C: u16 = 0x02;

const DW_LANG_C_plus_plus: u16 = 0x04;

const DW_LANG_C99: u16 = 0x0c;

const DW_LANG_C_plus_plus_11: u16 = 0x1a;

const DW_LANG_Rust: u16 = 0x1c;

const DW_LANG_C11: u16 = 0x1d;

const DW_LANG_C_plus_plus_14: u16 = 0x21;

const DW_LANG_C_plus_plus_20: u16 = 0x2a;

const DW_LANG_C_plus_plus_17: u16 = 0x2b;

const DW_LANG_C17: u16 = 0x2c;

const DW_ATE_address: u8 = 0x01;

const DW_ATE_boolean: u8 = 0x02;

const DW_ATE_float: u8 = 0x04;

const DW_ATE_signed: u8 = 0x05;

const DW_ATE_signed_char: u8 = 0x06;

const DW_ATE_unsigned: u8 = 0x07;

const DW_ATE_unsigned_char: u8 = 0x08;

const DW_ATE_UTF: u8 = 0x10;

/// What a type is that is made from another one, by its tag.
#[tactic(auto, unfolding(crate::specs::Codes::derived_form))]
pub(crate) fn derived_form(word: &[u8]) -> DerivedForm
    ensures { result ≡ derived_form word.now }
{
    if word == b"DW_TAG_pointer_type".as_slice() {
        DerivedForm::Pointer
    } else if word == b"DW_TAG_reference_type".as_slice() {
        DerivedForm::Reference
    } else if word == b"DW_TAG_rvalue_reference_type".as_slice() {
        DerivedForm::RvalueReference
    } else if word == b"DW_TAG_const_type".as_slice() {
        DerivedForm::Const
    } else if word == b"DW_TAG_volatile_type".as_slice() {
        DerivedForm::Volatile
    } else if word == b"DW_TAG_restrict_type".as_slice() {
        DerivedForm::Restrict
    } else if word == b"DW_TAG_atomic_type".as_slice() {
        DerivedForm::Atomic
    } else if word == b"DW_TAG_typedef".as_slice() {
        DerivedForm::Typedef
    } else if word == b"DW_TAG_member".as_slice() {
        DerivedForm::Member
    } else {
        DerivedForm::Other
    }
}

/// What a type with parts is, by its tag.
#[tactic(auto, unfolding(crate::specs::Codes::composite_form))]
pub(crate) fn composite_form(word: &[u8]) -> CompositeForm
    ensures { result ≡ composite_form word.now }
{
    if word == b"DW_TAG_structure_type".as_slice() {
        CompositeForm::Structure
    } else if word == b"DW_TAG_union_type".as_slice() {
        CompositeForm::Union
    } else if word == b"DW_TAG_class_type".as_slice() {
        CompositeForm::Class
    } else if word == b"DW_TAG_enumeration_type".as_slice() {
        CompositeForm::Enumeration
    } else if word == b"DW_TAG_array_type".as_slice() {
        CompositeForm::Array
    } else {
        CompositeForm::Other
    }
}

/// The code of a language, if it is known.
#[tactic(auto, unfolding(crate::specs::Codes::language_code))]
pub(crate) fn language_code(word: &[u8]) -> Option<u16>
    ensures { result ≡ language_code word.now }
{
    if word == b"DW_LANG_C89".as_slice() {
        Some(DW_LANG_C89)
    } else if word == b"DW_LANG_C".as_slice() {
        Some(DW_LANG_C)
    } else if word == b"DW_LANG_C_plus_plus".as_slice() {
        Some(DW_LANG_C_plus_plus)
    } else if word == b"DW_LANG_C99".as_slice() {
        Some(DW_LANG_C99)
    } else if word == b"DW_LANG_C_plus_plus_11".as_slice() {
        Some(DW_LANG_C_plus_plus_11)
    } else if word == b"DW_LANG_Rust".as_slice() {
        Some(DW_LANG_Rust)
    } else if word == b"DW_LANG_C11".as_slice() {
        Some(DW_LANG_C11)
    } else if word == b"DW_LANG_C_plus_plus_14".as_slice() {
        Some(DW_LANG_C_plus_plus_14)
    } else if word == b"DW_LANG_C_plus_plus_20".as_slice() {
        Some(DW_LANG_C_plus_plus_20)
    } else if word == b"DW_LANG_C_plus_plus_17".as_slice() {
        Some(DW_LANG_C_plus_plus_17)
    } else if word == b"DW_LANG_C17".as_slice() {
        Some(DW_LANG_C17)
    } else {
        None
    }
}

/// The code of a base type's encoding, if it is supported.
#[tactic(auto, unfolding(read_metadata::specs::Kind::encoding_code))]
pub(crate) fn encoding_code(word: &[u8]) -> Option<u8>
    ensures { result ≡ encoding_code word.now }
{
    if word == b"DW_ATE_address".as_slice() {
        Some(DW_ATE_address)
    } else if word == b"DW_ATE_boolean".as_slice() {
        Some(DW_ATE_boolean)
    } else if word == b"DW_ATE_float".as_slice() {
        Some(DW_ATE_float)
    } else if word == b"DW_ATE_signed".as_slice() {
        Some(DW_ATE_signed)
    } else if word == b"DW_ATE_signed_char".as_slice() {
        Some(DW_ATE_signed_char)
    } else if word == b"DW_ATE_unsigned".as_slice() {
        Some(DW_ATE_unsigned)
    } else if word == b"DW_ATE_unsigned_char".as_slice() {
        Some(DW_ATE_unsigned_char)
    } else if word == b"DW_ATE_UTF".as_slice() {
        Some(DW_ATE_UTF)
    } else {
        None
    }
}
