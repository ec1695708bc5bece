//! What is kept of nodes.

use base_ids::metadata::NodeId;
use base_list::List;
use read_metadata::node::FileNode;
use read_metadata::rv64_instr_crate::name::Name;

/// The elements of a tuple, `None` for `null`.
pub type Elements = List<Option<NodeId>>;

/// A function: `!DISubprogram`.
#[derive(Debug, Drop)]
pub struct DebugSubprogram {
    /// The name, empty if there is none.
    pub name: Name,
    /// The name for the linker, empty if there is none.
    pub linkage_name: Name,
    /// The node of its file.
    pub file: Option<NodeId>,
    /// The line of its declaration, 0 if there is none.
    pub line: u32,
    /// The line of its body, 0 if there is none.
    pub scope_line: u32,
    /// The node of its type.
    pub type_node: Option<NodeId>,
    /// Whether it is declared with the types of its parameters: `DIFlagPrototyped`.
    pub prototyped: bool,
    /// Whether only its own unit sees it: `DISPFlagLocalToUnit`.
    pub local: bool,
}

/// A local variable or a parameter: `!DILocalVariable`.
#[derive(Debug, Drop)]
pub struct DebugVariable {
    /// The name, empty if there is none.
    pub name: Name,
    /// Which parameter it is, counted from 1, and 0 for a variable that is none.
    pub arg: u32,
    /// The node of its scope.
    pub scope: Option<NodeId>,
    /// The node of its file.
    pub file: Option<NodeId>,
    /// The line of its declaration, 0 if there is none.
    pub line: u32,
    /// The node of its type.
    pub type_node: Option<NodeId>,
}

/// A base type: `!DIBasicType`.
#[derive(Debug, Drop)]
pub struct DebugBaseType {
    /// The name, empty if there is none.
    pub name: Name,
    /// The size in bytes.
    pub size: u8,
    /// The encoding's code (DWARF 5, section 7.8).
    pub encoding: u8,
}

/// What a type is that is made from another one, by its tag.
#[derive(Clone, Copy, Debug, PartialEq, Eq)]
pub enum DerivedForm {
    /// `DW_TAG_pointer_type`.
    Pointer,
    /// `DW_TAG_reference_type`.
    Reference,
    /// `DW_TAG_rvalue_reference_type`.
    RvalueReference,
    /// `DW_TAG_const_type`.
    Const,
    /// `DW_TAG_volatile_type`.
    Volatile,
    /// `DW_TAG_restrict_type`.
    Restrict,
    /// `DW_TAG_atomic_type`.
    Atomic,
    /// `DW_TAG_typedef`.
    Typedef,
    /// `DW_TAG_member`: no type, but a member of a record.
    Member,
    /// Any other tag, or none.
    Other,
}

/// A type that is made from another one, or a member of a record: `!DIDerivedType`.
#[derive(Debug, Drop)]
pub struct DerivedType {
    /// What it is.
    pub form: DerivedForm,
    /// The name, empty if there is none.
    pub name: Name,
    /// The node of the other type.
    pub base: Option<NodeId>,
    /// The size in bits.
    pub size: u64,
    /// A member's offset in its record, in bits.
    pub offset: u64,
    /// Whether a member is a bit field: `DIFlagBitField`.
    pub bit_field: bool,
    /// Whether a member isn't in the record: `DIFlagStaticMember`.
    pub in_no_record: bool,
}

/// What a type with parts is, by its tag.
#[derive(Clone, Copy, Debug, PartialEq, Eq)]
pub enum CompositeForm {
    /// `DW_TAG_structure_type`.
    Structure,
    /// `DW_TAG_union_type`.
    Union,
    /// `DW_TAG_class_type`.
    Class,
    /// `DW_TAG_enumeration_type`.
    Enumeration,
    /// `DW_TAG_array_type`.
    Array,
    /// Any other tag, or none.
    Other,
}

/// A type with parts: `!DICompositeType`.
#[derive(Debug, Drop)]
pub struct CompositeType {
    /// What it is.
    pub form: CompositeForm,
    /// The name, empty if there is none.
    pub name: Name,
    /// The node of the type of an array's elements, or of an enumeration's values.
    pub base: Option<NodeId>,
    /// The size in bits.
    pub size: u64,
    /// The node of the tuple of its parts.
    pub elements: Option<NodeId>,
    /// Whether it is only declared: `DIFlagFwdDecl`.
    pub declaration: bool,
    /// Whether an array is a vector: `DIFlagVector`.
    pub vector: bool,
}

/// An enumerator: `!DIEnumerator`.
#[derive(Debug, Drop)]
pub struct EnumeratorNode {
    /// The name, empty if there is none.
    pub name: Name,
    /// The value, if it isn't negative.
    pub value: u64,
    /// The value, if it is negative.
    pub negative: Option<i64>,
}

/// A dimension of an array: `!DISubrange`.
#[derive(Clone, Copy, Debug)]
pub struct SubrangeNode {
    /// The index of the first element.
    pub lower: u64,
    /// The number of elements, if it is known.
    pub count: Option<u64>,
}

/// A node, by its kind.
#[derive(Debug, Drop)]
pub enum DebugNode {
    /// `!DIFile`.
    File(FileNode),
    /// `!DILocation`, of which nothing is kept here.
    Location,
    /// `!DICompileUnit`: the code of its language, if that is known.
    Unit(Option<u16>),
    /// `!DISubprogram`.
    Subprogram(DebugSubprogram),
    /// `!DILexicalBlock`: the node of the scope around it.
    Block(Option<NodeId>),
    /// `!DILexicalBlockFile`: the node of the scope that it stands for.
    FileBlock(Option<NodeId>),
    /// `!DILocalVariable`.
    Variable(DebugVariable),
    /// `!DIBasicType`.
    BaseType(DebugBaseType),
    /// `!DIDerivedType`.
    Derived(DerivedType),
    /// `!DICompositeType`.
    Composite(CompositeType),
    /// `!DISubroutineType`: the node of the tuple of the types of its result and its parameters.
    Subroutine(Option<NodeId>),
    /// `!DIEnumerator`.
    Enumerator(EnumeratorNode),
    /// `!DISubrange`.
    Subrange(SubrangeNode),
    /// A tuple.
    Tuple(Elements),
}
