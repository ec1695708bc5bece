//! The parsed forms of lines.

use base_ids::function_ids::{BlockId, DebugNumber, SlotId};
use base_ids::metadata::NodeId;
use base_list::List;
use mir_func::debug_substitution::OperandPair;
use mir_func::location::Loc;
use mir_func::rv64_instr_crate::name::Name;
use mir_func::rv64_instr_crate::symbol::{Half, Symbol};
use mir_func::variable::Fragment;
use read_token::lexeme::{Flag, RegisterName};
use std::alloc::AllocError;
use thiserror::Error;

/// A register on a line.
#[derive(Clone, Copy, Debug, PartialEq, Eq)]
pub struct RegisterForm {
    /// Its flag: `implicit`, `implicit-def` or none.
    pub flag: Flag,
    /// Its name.
    pub name: RegisterName,
}

/// The registers before an item's `=`, in order.
pub type Definitions = List<RegisterForm>;

/// A `!DIExpression(..)`.
#[derive(Clone, Copy, Debug, PartialEq, Eq)]
pub enum Expression {
    /// `!DIExpression()`.
    Empty,
    /// `!DIExpression(DW_OP_LLVM_arg, 0)`.
    Argument,
    /// `!DIExpression(DW_OP_LLVM_fragment, O, S)` where the S bits from bit O are whole bytes that a fragment may
    /// have.
    Part(Fragment),
    /// The same with `DW_OP_LLVM_arg, 0, ` before it.
    PartOfArgument(Fragment),
    /// Any other.
    Other,
}

/// The address of a symbol plus a number of bytes.
#[derive(Debug, Drop)]
pub struct AddressForm {
    /// The symbol. The number of a constant above the limit is `BEYOND`.
    pub symbol: Symbol,
    /// What is added, and `None` for a number that doesn't fit 32 bits signed.
    pub addend: Option<i32>,
}

/// An operand.
#[derive(Debug, Drop)]
pub enum OperandForm {
    /// A register.
    Register(RegisterForm),
    /// An integer, and `None` for one that doesn't fit 64 bits signed.
    Integer(Option<i64>),
    /// `%stack.N`.
    Slot(SlotId),
    /// `%bb.N`.
    Block(BlockId),
    /// A symbol, by its name with escapes replaced by their bytes.
    Symbol(Name),
    /// A half of an address: a symbol behind `target-flags(riscv-hi)` or `target-flags(riscv-lo)`.
    Part(Half, AddressForm),
    /// A symbol with a number behind it, or a constant of the function's constant pool, without a half: debug values
    /// alone have it.
    Address(AddressForm),
    /// `%fixed-stack.N`.
    Fixed(u32),
    /// A literal behind the name of its type: debug values alone have it.
    Literal,
    /// A register mask.
    Mask,
    /// `!N`.
    Node(NodeId),
    /// `!DIExpression(..)`.
    Expression(Expression),
    /// `dbg-instr-ref(K, O)`.
    Reference(OperandPair),
}

/// The operands after an opcode, in order.
pub type OperandForms = List<OperandForm>;

/// The line of an item. A number above its limit is `BEYOND` here, and then `exceeds` is set.
#[derive(Debug, Drop)]
pub struct ItemForm {
    /// The registers before its `=`.
    pub definitions: Definitions,
    /// Its opcode.
    pub opcode: Name,
    /// The operands after it.
    pub operands: OperandForms,
    /// Whether the word `noreturn` stands before the opcode.
    pub no_return: bool,
    /// Whether a memory operand of the line is volatile: `(volatile ` stands behind its `::`. It counts in the linked
    /// language alone.
    pub volatile: bool,
    /// The number after `debug-instr-number`.
    pub number: Option<DebugNumber>,
    /// The location after `debug-location`.
    pub loc: Loc,
    /// Whether a number of a register, stack entry, block, node, reference or location, or the debug instruction
    /// number, is above 2^30 - 1 or negative, or an integer on the line has an absolute value of 2^128 or more.
    pub exceeds: bool,
}

/// One line of a function's body, parsed.
#[derive(Debug, Drop)]
pub enum BodyLine {
    /// Nothing: it is empty, or lists successors or live-in registers.
    Passed,
    /// In the linked language a line that lists no successors: control doesn't go on behind its block.
    Closed,
    /// The label of a block, and `None` for one whose number is above 2^30 - 1.
    Label(Option<BlockId>),
    /// An item.
    Item(ItemForm),
}

/// Why a line couldn't be parsed.
#[derive(Clone, Copy, Debug, PartialEq, Eq, Drop, Error)]
pub enum FormError {
    /// A byte begins no token.
    #[error("a byte begins no token")]
    BadByte,
    /// A quote isn't closed.
    #[error("a quote is not closed")]
    UnclosedString,
    /// The line has no accepted form.
    #[error("the line is of no form")]
    BadLine,
    /// Memory ran out.
    #[error("out of memory")]
    Memory,
}

impl From<AllocError> for FormError {
    ghost use Rattle.std.specs.Prelude.{◌≡◌};
    ghost use Rattle.read_line.specs.declared.form.FormError.TheVariants.{Memory};

    ghost from_gives = { λ _ e. e ≡ Memory };

    fn from(_e: AllocError) -> FormError {
        FormError::Memory
    }
}
