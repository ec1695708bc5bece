//! The content of a unit: types, functions and variables.

use base_list::List;

/// A name, by its bytes. It counts up to its first zero byte.
pub type Name = List<u8>;
/// Types, in order.
pub type BaseEntries = List<BaseEntry>;
/// Functions, in order.
pub type FunctionEntries = List<FunctionEntry>;
/// Variables, in order.
pub type VariableEntries = List<VariableEntry>;

/// A base type (DWARF 5 section 5.1).
#[derive(Debug, Drop)]
pub struct BaseEntry {
    /// Its name.
    pub name: Name,
    /// Its size in bytes.
    pub size: u8,
    /// Its encoding, by DWARF's number (section 7.8).
    pub encoding: u8,
}

/// A parameter or a variable of a function (DWARF 5 section 4.1).
#[derive(Debug, Drop)]
pub struct VariableEntry {
    /// Its name.
    pub name: Name,
    /// Whether it is a parameter.
    pub argument: bool,
    /// Its type, by its index in the unit's types.
    pub base: Option<u32>,
    /// Its location list, by the list's index.
    pub list: u32,
}

/// A function (DWARF 5 section 3.3).
#[derive(Debug, Drop)]
pub struct FunctionEntry {
    /// Its name.
    pub name: Name,
    /// Its first address, in bytes.
    pub lo: u64,
    /// The length of its code in bytes.
    pub len: u32,
    /// Its parameters and variables.
    pub variables: VariableEntries,
}

/// A compilation unit (DWARF 5 section 3.1.1).
#[derive(Debug, Drop)]
pub struct Unit {
    /// The name of its source file.
    pub name: Name,
    /// The directory of its compilation.
    pub dir: Name,
    /// The length of its code in bytes.
    pub text_len: u32,
    /// Its types.
    pub types: BaseEntries,
    /// Its functions.
    pub functions: FunctionEntries,
}
