//! The metadata nodes that are kept.

use base_ids::metadata::NodeId;
use rv64_instr::name::Name;

/// A local variable or a parameter: `!DILocalVariable`.
#[derive(Debug, Drop)]
pub struct VariableNode {
    /// The name, empty if there is none.
    pub name: Name,
    /// Which parameter it is, counted from 1, and 0 for a variable that is none.
    pub arg: u32,
    /// The node of its type.
    pub base: Option<NodeId>,
}

/// A source location: `!DILocation`.
#[derive(Clone, Copy, Debug)]
pub struct LocationNode {
    /// The line in the source file, counted from 1, and 0 for code of no line.
    pub line: u32,
    /// The column, 0 if there is none.
    pub column: u32,
    /// The node of the scope.
    pub scope: Option<NodeId>,
    /// The node of the location of the call, if the function was inlined.
    pub inlined_at: Option<NodeId>,
}

/// A source file: `!DIFile`.
#[derive(Debug, Drop)]
pub struct FileNode {
    /// The file's name, empty if there is none.
    pub name: Name,
    /// The directory, empty if there is none.
    pub dir: Name,
}

/// A base type: `!DIBasicType`.
#[derive(Debug, Drop)]
pub struct BaseTypeNode {
    /// The name, empty if there is none.
    pub name: Name,
    /// The size in bytes, from 1 to 255.
    pub size: u32,
    /// The encoding's code (DWARF 5, section 7.8, "Base Type Attribute Encodings").
    pub encoding: u8,
}

/// A function: `!DISubprogram`.
#[derive(Debug, Drop)]
pub struct SubprogramNode {
    /// The name, empty if there is none.
    pub name: Name,
    /// The node of its file.
    pub file: Option<NodeId>,
}

/// A lexical block: `!DILexicalBlock` or `!DILexicalBlockFile`.
#[derive(Clone, Copy, Debug)]
pub struct BlockNode {
    /// The node of the scope around it.
    pub scope: Option<NodeId>,
    /// The node of its file.
    pub file: Option<NodeId>,
}

/// A node, by its kind.
#[derive(Debug, Drop)]
pub enum Node {
    Variable(VariableNode),
    Location(LocationNode),
    File(FileNode),
    BaseType(BaseTypeNode),
    Subprogram(SubprogramNode),
    Block(BlockNode),
}
