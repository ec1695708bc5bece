//! The tags of types (DWARF 5, section 7.5.3).

pub(crate) const DW_TAG_class_type: u16 = 0x02;

pub(crate) const DW_TAG_enumeration_type: u16 = 0x04;

pub(crate) const DW_TAG_pointer_type: u16 = 0x0f;

pub(crate) const DW_TAG_reference_type: u16 = 0x10;

pub(crate) const DW_TAG_structure_type: u16 = 0x13;

pub(crate) const DW_TAG_union_type: u16 = 0x17;

pub(crate) const DW_TAG_const_type: u16 = 0x26;

pub(crate) const DW_TAG_volatile_type: u16 = 0x35;

pub(crate) const DW_TAG_restrict_type: u16 = 0x37;

pub(crate) const DW_TAG_rvalue_reference_type: u16 = 0x42;

pub(crate) const DW_TAG_atomic_type: u16 = 0x47;
