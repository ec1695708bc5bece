//! Abbreviations: an entry without its values. Entries that are alike but for these have one abbreviation.

ghost use Rattle.std.specs.Prelude.{◌≡◌, ◌++◌, map, IfOk, OnOk};
ghost use Rattle.std.specs.List.{flat_map};
ghost use Rattle.dwarf_entry.specs.Declarations;
ghost use Rattle.dwarf_entry.specs.Declarations.{specification_of, same, same_specifications, is_declared};
ghost use Rattle.dwarf_entry.specs.Declarations.{specification, declaration, abbreviation_section};

use crate::constants::*;
use crate::tree::{Attribute, Bytes, Entry, TreeItem, Value};
use base_list::List;
use dwarf_base::constants::{DW_FORM_string, DW_FORM_udata};
use dwarf_base::leb::uleb;
use dwarf_info::abbreviation::push_leb;
use dwarf_info::constants::*;
use std::alloc::{AllocError, Global};

/// The attributes of an abbreviation, in order.
pub type Specifications = List<Specification>;
/// Abbreviations, in the order of their codes, which count from 1.
pub type Abbreviations = List<Abbreviation>;

/// An attribute without its value (DWARF 5 section 7.5.3).
#[derive(Clone, Copy, Debug, PartialEq, Eq)]
pub struct Specification {
    /// The number of its name.
    pub name: u16,
    /// The number of its form.
    pub form: u8,
}

/// An entry without its values (DWARF 5 section 7.5.3).
#[derive(Debug, Drop)]
pub struct Abbreviation {
    /// Its tag.
    pub tag: u16,
    /// Whether it has children.
    pub children: bool,
    /// Its attributes.
    pub attributes: Specifications,
}

/// The number of a value's form (DWARF 5 section 7.5.6).
pub fn form_of(value: &Value) -> u8
    ensures { result ≡ Declarations.form_of value.now }
{
    match value {
        Value::Address(_) => DW_FORM_addr,
        Value::Data1(_) => DW_FORM_data1,
        Value::Data2(_) => DW_FORM_data2,
        Value::Data4(_) => DW_FORM_data4,
        Value::Unsigned(_) => DW_FORM_udata,
        Value::Signed(_) => DW_FORM_sdata,
        Value::Text(_) => DW_FORM_string,
        Value::Reference(_) => DW_FORM_ref4,
        Value::SectionOffset(_) => DW_FORM_sec_offset,
        Value::LocationList(_) => DW_FORM_loclistx,
        Value::RangeList(_) => DW_FORM_rnglistx,
        Value::Flag(_) => DW_FORM_flag,
        Value::Present => DW_FORM_flag_present,
        Value::Expression(_) => DW_FORM_exprloc,
    }
}

/// The abbreviation of an entry. The error is out of memory.
pub fn abbreviation_of(alloc: Global, entry: &Entry) -> Result<Abbreviation, AllocError>
    ensures { IfOk result (λ a. a ≡ Declarations.abbreviation_of entry.now) }
{
    let attributes = specifications(alloc, entry.attributes.as_slice())?;
    Ok(Abbreviation {
        tag: entry.tag,
        children: entry.children,
        attributes: List::from(attributes),
    })
}

/// Attributes without their values.
fn specifications(alloc: Global, attributes: &[Attribute]) -> Result<Vec<Specification>, AllocError>
    ensures { IfOk result (λ s. s.items ≡ map specification_of attributes.now) }
{
    let mut out = Vec::new(alloc);
    for attribute in attributes {
        out.push(Specification {
            name: attribute.name,
            form: form_of(&attribute.value),
        })?;
    }
    Ok(out)
}

/// Whether an abbreviation is that of an entry.
pub fn is_abbreviation(abbreviation: &Abbreviation, entry: &Entry) -> bool
    ensures { result ≡ same abbreviation.now (Declarations.abbreviation_of entry.now) }
{
    abbreviation.tag == entry.tag
        && children_flag(abbreviation.children) == children_flag(entry.children)
        && are_specifications(
            abbreviation.attributes.as_slice(),
            entry.attributes.as_slice(),
        )
}

/// Whether these are attributes without their values.
fn are_specifications(specifications: &[Specification], attributes: &[Attribute]) -> bool
    ensures { result ≡ same_specifications specifications.now (map specification_of attributes.now) }
{
    if specifications.len() != attributes.len() {
        return false;
    }
    for (i, attribute) in attributes.iter().enumerate() {
        let name = specifications[i].name;
        let form = specifications[i].form;
        if name != attribute.name || form != form_of(&attribute.value) {
            return false;
        }
    }
    true
}

/// The code of an entry's abbreviation: the number of the first that is its own, and of one behind the last if there is
/// none.
pub fn code_of(abbreviations: &[Abbreviation], entry: &Entry) -> usize
    ensures { result ≡ Declarations.code_of abbreviations.now (Declarations.abbreviation_of entry.now) }
{
    for (i, abbreviation) in abbreviations.iter().enumerate() {
        if is_abbreviation(abbreviation, entry) {
            return i + 1;
        }
    }
    abbreviations.len() + 1
}

/// Whether the abbreviation of an entry is among others.
pub fn has_abbreviation(abbreviations: &[Abbreviation], entry: &Entry) -> bool
    ensures { result ≡ is_declared (Declarations.abbreviation_of entry.now) abbreviations.now }
{
    for abbreviation in abbreviations {
        if is_abbreviation(abbreviation, entry) {
            return true;
        }
    }
    false
}

/// The abbreviations of a tree, each once, in order of first use. The error is out of memory.
pub fn abbreviations_of(alloc: Global, tree: &[TreeItem]) -> Result<Abbreviations, AllocError>
    ensures { IfOk result (λ a. a ≡ Declarations.abbreviations_of tree.now) }
{
    let mut out: Vec<Abbreviation> = Vec::new(alloc);
    for item in tree {
        match item {
            TreeItem::Null => {}
            TreeItem::Die(entry) => {
                if !has_abbreviation(out.as_slice(), entry) {
                    out.push(abbreviation_of(alloc, entry)?)?;
                }
            }
        }
    }
    Ok(List::from(out))
}

/// The section `.debug_abbrev`. The error is out of memory.
pub fn write_abbreviations(
    alloc: Global,
    abbreviations: &[Abbreviation],
) -> Result<Bytes, AllocError>
    ensures { IfOk result (λ bytes. bytes ≡ abbreviation_section abbreviations.now) }
{
    let mut out = Vec::new(alloc);
    for (i, abbreviation) in abbreviations.iter().enumerate() {
        push_declaration(&mut out, i + 1, abbreviation)?;
    }
    out.push(0)?;
    Ok(List::from(out))
}

/// Appends the declaration of an abbreviation.
#[tactic(auto, unfolding(crate::specs::Declarations::declaration))]
fn push_declaration(out: &mut Vec<u8>, code: usize, a: &Abbreviation) -> Result<(), AllocError>
    ensures { OnOk result (out.new.items ≡ out.old.items ++ declaration code a.now) }
{
    push_leb(out, &uleb(code as u64))?;
    push_leb(out, &uleb(a.tag as u64))?;
    out.push(children_flag(a.children))?;
    push_specifications(out, a.attributes.as_slice())?;
    out.push(0)?;
    out.push(0)?;
    Ok(())
}

/// Appends the attributes of a declaration.
fn push_specifications(
    out: &mut Vec<u8>,
    specifications: &[Specification],
) -> Result<(), AllocError>
    ensures { OnOk result (out.new.items ≡ out.old.items ++ flat_map specification specifications.now) }
{
    for s in specifications {
        push_leb(out, &uleb(s.name as u64))?;
        push_leb(out, &uleb(s.form as u64))?;
    }
    Ok(())
}

/// Whether children follow, by DWARF's number.
fn children_flag(children: bool) -> u8
    ensures { result ≡ Declarations.children_flag children }
{
    if children {
        DW_CHILDREN_yes
    } else {
        DW_CHILDREN_no
    }
}
