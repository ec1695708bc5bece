//! What types are.

use base_list::List;

/// A name, by its bytes.
pub type Name = List<u8>;
/// Members, in order.
pub type Members = List<Member>;
/// Enumerators, in order.
pub type Enumerators = List<Enumerator>;
/// The number of elements in each dimension of an array, and none where it isn't known.
pub type Counts = List<Option<u64>>;
/// Types, by their indices, in order.
pub type Indices = List<u32>;

/// A member of a record.
#[derive(Debug, Drop)]
pub struct Member {
    /// Its name, empty if it has none.
    pub name: Name,
    /// The index of its type.
    pub base: u32,
    /// Its offset in the record, in bits.
    pub offset: u64,
    /// Its size in bits.
    pub size: u64,
    /// Whether it is a bit field.
    pub bit_field: bool,
}

/// An enumerator.
#[derive(Debug, Drop)]
pub struct Enumerator {
    /// Its name.
    pub name: Name,
    /// Its value, if that isn't below 0.
    pub value: u64,
    /// Its value, if that is below 0.
    pub negative: Option<i64>,
}

/// What a type is (DWARF 5, chapter 5). Other types are named by their indices in a list of types; an index that is
/// past its end names nothing that is known.
#[derive(Debug, Drop)]
pub enum Shape {
    /// A base type: its name, its size in bytes and its encoding, by DWARF's number.
    Base(Name, u8, u8),
    /// A pointer or a reference, by its tag, to a type or to void.
    Pointer(u16, Option<u32>),
    /// A type, or void, with a qualifier, by the qualifier's tag.
    Qualifier(u16, Option<u32>),
    /// Another name for a type, or for void.
    Typedef(Name, Option<u32>),
    /// A type that is only declared, by its tag and its name.
    Declaration(u16, Name),
    /// A structure, a union or a class, by its tag: its name, its size in bytes, and its members.
    Record(u16, Name, u64, Members),
    /// An enumeration: its name, its size in bytes, the type of its values if that is given, and its enumerators.
    Enumeration(Name, u64, Option<u32>, Enumerators),
    /// An array of a type.
    Array(u32, Counts),
    /// A function by the type of its result, or void, by the types of its parameters, and by whether more parameters
    /// may follow.
    Subroutine(Option<u32>, Indices, bool),
}

/// A way to go from a type to others.
#[derive(Clone, Copy, Debug, PartialEq, Eq)]
pub enum Walk {
    /// To the types whose values are parts of a value of the type.
    ByValue,
    /// To the types that are written out where the type is named.
    ByName,
}
