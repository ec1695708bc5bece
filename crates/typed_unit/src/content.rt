//! What the entries of a compilation unit tell, but for its types. Types are named by their indices in a list of types;
//! an index that is past its end names nothing that is known.

use base_list::List;
use dwarf_info::unit::Name;

/// What stands inside a function, in prefix order: each block and each inlined function before what stands inside it,
/// and behind that its end.
pub type Inside = List<Inner>;
/// Functions, in order.
pub type TypedFunctions = List<TypedFunction>;
/// Functions as they are declared, in order.
pub type Subprograms = List<Subprogram>;

/// Where something is declared (DWARF 5 section 2.14).
#[derive(Clone, Copy, Debug, PartialEq, Eq)]
pub struct Declared {
    /// The file, by its number in the line number table.
    pub file: u32,
    /// The line, from 1.
    pub line: u32,
}

/// A function as its source declares it (DWARF 5 section 3.3.1).
#[derive(Debug, Drop)]
pub struct Subprogram {
    /// Its name.
    pub name: Name,
    /// The name of its symbol, empty if that isn't given.
    pub linkage_name: Name,
    /// Where it is declared.
    pub declared: Option<Declared>,
    /// Whether other units can name it.
    pub external: bool,
    /// Whether its declaration has the types of its parameters.
    pub prototyped: bool,
    /// Its own type.
    pub signature: Option<u32>,
}

/// A parameter or a variable (DWARF 5 section 4.1).
#[derive(Debug, Drop)]
pub struct TypedVariable {
    /// Its name.
    pub name: Name,
    /// Whether it is a parameter.
    pub argument: bool,
    /// Where it is declared.
    pub declared: Option<Declared>,
    /// Its type.
    pub base: Option<u32>,
    /// Its location list, by the list's index, and none for one without a location.
    pub list: Option<u64>,
}

/// The code of a function that was inlined at a call (DWARF 5 section 3.3.8.2).
#[derive(Clone, Copy, Debug, PartialEq, Eq)]
pub struct Call {
    /// The function that was inlined, by its index among the unit's.
    pub origin: u32,
    /// The addresses of its code, by their range list's index.
    pub list: u64,
    /// The file of the call, by its number in the line number table.
    pub file: u32,
    /// The line of the call.
    pub line: u32,
    /// The column of the call.
    pub column: u32,
}

/// An item of what stands inside a function.
#[derive(Debug, Drop)]
pub enum Inner {
    /// A parameter or a variable.
    Variable(TypedVariable),
    /// A lexical block (DWARF 5 section 3.5), whose addresses are the range list with this index.
    Block(u64),
    /// A function that was inlined.
    Inlined(Call),
    /// The end of the innermost block or inlined function.
    End,
}

/// A function with its code (DWARF 5 section 3.3).
#[derive(Debug, Drop)]
pub struct TypedFunction {
    /// The function as it is declared.
    pub subprogram: Subprogram,
    /// Its first address, in bytes.
    pub lo: u64,
    /// The length of its code in bytes.
    pub len: u32,
    /// What stands inside it.
    pub inside: Inside,
}

/// A compilation unit (DWARF 5 section 3.1.1).
#[derive(Debug, Drop)]
pub struct TypedUnit {
    /// The language of its source, by DWARF's number (section 7.12).
    pub language: u16,
    /// The name of its source file.
    pub name: Name,
    /// The directory of its compilation.
    pub dir: Name,
    /// The length of its code in bytes.
    pub text_len: u32,
    /// The functions that were inlined (section 3.3.8.1).
    pub abstracts: Subprograms,
    /// Its functions.
    pub functions: TypedFunctions,
    /// Whether the frame base of each function is told: its canonical frame address.
    pub frame_base: bool,
    /// Whether there are range lists.
    pub ranges: bool,
}
