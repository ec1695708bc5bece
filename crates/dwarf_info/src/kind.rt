//! The kinds of entries, each with its tag, its attributes and their forms: one description for the encodings of both
//! abbreviations and entries.

/// A kind of entry.
#[derive(Clone, Copy, Debug, PartialEq, Eq)]
pub enum DieKind {
    /// The unit.
    CompileUnit,
    /// A function.
    Subprogram,
    /// A parameter with a type.
    TypedParameter,
    /// A parameter without a type.
    Parameter,
    /// A variable with a type.
    TypedVariable,
    /// A variable without a type.
    Variable,
    /// A base type.
    BaseType,
    /// The unit of entries among which are inlined functions.
    UnitWithRanges,
    /// A function that was inlined, apart from its calls.
    AbstractSubprogram,
    /// The code of a function that was inlined at a call.
    InlinedSubroutine,
}

/// The form of an attribute's value (DWARF 5 section 7.5.5).
#[derive(Clone, Copy, Debug, PartialEq, Eq)]
pub enum Form {
    /// `DW_FORM_addr`: an address of eight bytes.
    Address,
    /// `DW_FORM_data1`: a number of one byte.
    Data1,
    /// `DW_FORM_data2`: a number of two bytes.
    Data2,
    /// `DW_FORM_data4`: a number of four bytes.
    Data4,
    /// `DW_FORM_string`: a string that ends with a zero byte.
    Text,
    /// `DW_FORM_ref4`: an entry's offset from the unit's first byte, in four bytes.
    Reference,
    /// `DW_FORM_sec_offset`: an offset in another section, in four bytes.
    SectionOffset,
    /// `DW_FORM_loclistx`: a location list's index, in ULEB128.
    LocationList,
    /// `DW_FORM_rnglistx`: a range list's index, in ULEB128.
    RangeList,
    /// `DW_FORM_udata`: a number in ULEB128.
    Unsigned,
}

/// An attribute of a kind of entry.
#[derive(Clone, Copy, Debug, PartialEq, Eq)]
pub struct Attribute {
    /// The number of its name.
    pub name: u8,
    /// The form of its value.
    pub form: Form,
}
