//! Trees of entries.

use base_list::List;
use dwarf_info::unit::Name;

/// Bytes, in order.
pub type Bytes = List<u8>;
/// The attributes of an entry, in order.
pub type Attributes = List<Attribute>;
/// A tree of entries in prefix order (DWARF 5 section 2.3): each entry stands before its children, and behind the last
/// child of each entry with children stands a null entry.
pub type Tree = List<TreeItem>;

/// The value of an attribute. Each has a form of its own (DWARF 5 sections 7.5.5 and 7.5.6).
#[derive(Debug, Drop)]
pub enum Value {
    /// `DW_FORM_addr`: an address.
    Address(u64),
    /// `DW_FORM_data1`: a number of one byte.
    Data1(u8),
    /// `DW_FORM_data2`: a number of two bytes.
    Data2(u16),
    /// `DW_FORM_data4`: a number of four bytes.
    Data4(u32),
    /// `DW_FORM_udata`: a number in unsigned LEB128.
    Unsigned(u64),
    /// `DW_FORM_sdata`: a number in signed LEB128.
    Signed(i64),
    /// `DW_FORM_string`: a string up to its first zero byte.
    Text(Name),
    /// `DW_FORM_ref4`: an entry of the same tree, by its index among the tree's items.
    Reference(usize),
    /// `DW_FORM_sec_offset`: an offset in another section.
    SectionOffset(u32),
    /// `DW_FORM_loclistx`: a location list, by its index.
    LocationList(u64),
    /// `DW_FORM_rnglistx`: a range list, by its index.
    RangeList(u64),
    /// `DW_FORM_flag`: whether something is so.
    Flag(bool),
    /// `DW_FORM_flag_present`: something is so.
    Present,
    /// `DW_FORM_exprloc`: a DWARF expression, by its bytes.
    Expression(Bytes),
}

/// An attribute of an entry.
#[derive(Debug, Drop)]
pub struct Attribute {
    /// The number of its name (DWARF 5 section 7.5.4).
    pub name: u16,
    /// Its value.
    pub value: Value,
}

/// A debugging information entry.
#[derive(Debug, Drop)]
pub struct Entry {
    /// Its tag (DWARF 5 section 7.5.3).
    pub tag: u16,
    /// Whether children follow it, and a null entry behind them.
    pub children: bool,
    /// Its attributes.
    pub attributes: Attributes,
}

/// An item of a tree in prefix order.
#[derive(Debug, Drop)]
pub enum TreeItem {
    /// An entry.
    Die(Entry),
    /// The null entry behind the last child of an entry.
    Null,
}
