//! The output of the compiler.

use base_ids::function_ids::{BlockId, ObjectId};
use base_list::List;
use mir_func::debug_substitution::DebugSubstitution;
use mir_func::item::Item;
use mir_func::position::Origin;
use mir_func::variable::VarId;
use rv64_instr::name::Name;
use rv64_instr::op::BranchOp;
use rv64_instr::reg::Reg;

/// Bytes of a section.
pub type Bytes = List<u8>;

/// The line of an item.
#[derive(Debug, Drop)]
pub struct ItemLine {
    /// The address of its first byte, in bytes. A debug value or a DBG_PHI has none.
    pub address: Option<u32>,
    /// The item. A frame slot or a stack object is x2 and an offset, as in the item's word.
    pub item: Item,
}

/// An implicit operand.
#[derive(Clone, Copy, Debug, PartialEq, Eq)]
pub enum Implicit {
    /// A register that is set by convention.
    Def(Reg),
    /// A register that is read by convention.
    Use(Reg),
}

/// Implicit operands, in text order.
pub type Implicits = List<Implicit>;

/// The first line of a long branch: a branch over the next word. It has no debug instruction number and no debug
/// location.
#[derive(Debug, Drop)]
pub struct SkipLine {
    /// The address of its first byte, in bytes.
    pub address: u32,
    /// Its origin.
    pub origin: Origin,
    /// Its operation: the inverse of that of the long branch.
    pub op: BranchOp,
    /// The first register that it compares.
    pub first: Reg,
    /// The second one.
    pub second: Reg,
    /// Its implicit operands.
    pub implicit: Implicits,
}

/// A line of a block.
#[derive(Debug, Drop)]
pub enum Line {
    /// An item.
    Item(ItemLine),
    /// The first word of a long branch. The second one, a jump, is an item's line after it.
    Skip(SkipLine),
}

/// Lines, in order.
pub type Lines = List<Line>;

/// A variable of a function.
#[derive(Debug, Drop)]
pub struct ListedVariable {
    /// The number of its location list in `.debug_loclists`.
    pub list: u32,
    /// The variable, as a whole.
    pub variable: VarId,
    /// Its name.
    pub name: Name,
}

/// Where a stack object begins.
#[derive(Clone, Copy, Debug, PartialEq, Eq)]
pub enum ObjectPlace {
    /// So many bytes behind the lowest byte of the objects' area.
    InArea(u32),
    /// So many bytes above or below the stack pointer at entry: it is a fixed object.
    FromEntry(i32),
}

/// A stack object of a function.
#[derive(Clone, Copy, Debug, PartialEq, Eq)]
pub struct ListedObject {
    /// Its number.
    pub id: ObjectId,
    /// Its size in bytes.
    pub size: u32,
    /// Where it begins.
    pub place: ObjectPlace,
}

/// A block of a function.
#[derive(Debug, Drop)]
pub struct ListedBlock {
    /// The N of `bb.N`.
    pub id: BlockId,
    /// Its lines.
    pub lines: Lines,
}

/// A function with its code.
#[derive(Debug, Drop)]
pub struct ListedFunction {
    /// Its name.
    pub name: Name,
    /// Its first address, in bytes.
    pub low: u32,
    /// The address after its last byte.
    pub high: u32,
    /// Its stack objects, in declared order.
    pub objects: List<ListedObject>,
    /// Its variables.
    pub variables: List<ListedVariable>,
    /// The substitutions of its debug instruction numbers.
    pub substitutions: List<DebugSubstitution>,
    /// The code before its first block.
    pub prologue: Lines,
    /// Its blocks.
    pub blocks: List<ListedBlock>,
}

/// Functions, in the order of the text.
pub type ListedFunctions = List<ListedFunction>;

/// The output of a compilation: the bytes of its sections (DWARF 5, section 7), and its functions.
#[derive(Debug, Drop)]
pub struct Output {
    /// `.text`.
    pub text: Bytes,
    /// `.debug_abbrev`.
    pub abbreviations: Bytes,
    /// `.debug_info`.
    pub info: Bytes,
    /// `.debug_line`.
    pub rows: Bytes,
    /// `.debug_loclists`.
    pub loclists: Bytes,
    /// `.debug_frame`, if it was asked for.
    pub frame: Option<Bytes>,
    /// `.debug_rnglists`, if inlined functions were asked for.
    pub ranges: Option<Bytes>,
    /// The functions.
    pub functions: ListedFunctions,
}
