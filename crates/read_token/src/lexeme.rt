//! Lexemes: tokens with the values that their texts have.

use base_ids::function_ids::{BlockId, SlotId};
use base_ids::metadata::NodeId;
use base_list::List;
use read_metadata::read_lexer_crate::parts::Token;
use read_metadata::rv64_instr_crate::reg::Reg;

/// The value that replaces every number above the limit, or below 0: 2^30. The greatest number within the limit is
/// one less.
pub const BEYOND: u32 = 1 << 30;

/// The name of a register.
#[derive(Clone, Copy, Debug, PartialEq, Eq)]
pub enum RegisterName {
    /// `$x0` to `$x31`.
    Physical(Reg),
    /// `$noreg`.
    Absent,
    /// Another name after `$`.
    Other,
    /// `%N`, by its number; `BEYOND` for every number above the limit.
    Virtual(u32),
}

/// The flag of a register: whether it is an implicit operand.
#[derive(Clone, Copy, Debug, PartialEq, Eq)]
pub enum Flag {
    /// No implicit operand.
    Plain,
    /// `implicit`: it is used implicitly.
    Implicit,
    /// `implicit-def`: it is defined implicitly.
    ImplicitDef,
}

/// The value of an integer.
#[derive(Clone, Copy, Debug, PartialEq, Eq)]
pub enum Number {
    /// One that fits 64 bits signed.
    Fits(i64),
    /// One that doesn't, with an absolute value below 2^128.
    Large,
    /// One with an absolute value of 2^128 or more.
    Wide,
}

/// The meaning of a word.
#[derive(Clone, Copy, Debug, PartialEq, Eq)]
pub enum Word {
    /// A word before a register, with its flag: `implicit`, `implicit-def`, and `Plain` for `def`, `dead`, `killed`,
    /// `undef`, `internal`, `early-clobber`, `debug-use` and `renamable`.
    Flag(Flag),
    /// `debug-instr-number`.
    InstrNumber,
    /// `debug-location`.
    Location,
    /// `target-flags`.
    TargetFlags,
    /// `dbg-instr-ref`.
    InstrRef,
    /// `tied-def`.
    TiedDef,
    /// `line`.
    Line,
    /// `column`.
    Column,
    /// `scope`.
    Scope,
    /// `inlinedAt`.
    InlinedAt,
    /// `DW_OP_LLVM_arg`.
    Argument,
    /// `DW_OP_LLVM_fragment`.
    Fragment,
    /// `noreturn`: a flag of calls.
    NoReturn,
    /// `riscv-hi`: the operand behind is the upper half of an address (LLVM: `MO_HI`).
    HighPart,
    /// `riscv-lo`: it is the lower half (LLVM: `MO_LO`).
    LowPart,
    /// The name of a type before a literal: `half`, `float`, `double`, `fp128`, `ptr` or `iN`.
    TypeName,
    /// `bb.N` or `bb.N.name`; the number is `BEYOND` for every block above the limit.
    Block(BlockId),
    /// Another one that begins with a lower-case letter.
    Lower,
    /// Another one that begins with an upper-case letter.
    Upper,
    /// One that begins with `_`.
    Underscore,
}

/// A token with its value. The number of every stack entry, block and node above the limit is `BEYOND`.
#[derive(Clone, Copy, Debug, PartialEq, Eq)]
pub enum Lexeme {
    /// A word, with its token.
    Word(Word, Token),
    /// A register.
    Register(RegisterName),
    /// `%stack.N` or `%stack.N.name`.
    Slot(SlotId),
    /// `%bb.N` or `%bb.N.name`.
    Block(BlockId),
    /// `%fixed-stack.N`; `BEYOND` for every number above the limit.
    Fixed(u32),
    /// `%const.N`; `BEYOND` for every number above the limit.
    Constant(u32),
    /// `!N`.
    Node(NodeId),
    /// `!DIExpression`.
    Expression,
    /// `!DILocation`.
    InlineLocation,
    /// An integer.
    Integer(Number),
    /// A floating-point literal.
    Float,
    /// A symbol, by its token.
    Symbol(Token),
    /// `,`
    Comma,
    /// `=`
    Equals,
    /// `(`
    Open,
    /// `)`
    Close,
    /// `:`
    Colon,
    /// `+`
    Plus,
    /// `-` where no digit follows.
    Minus,
    /// Any other token.
    Other,
}

/// Lexemes of a line, in order.
pub type Lexemes = List<Lexeme>;
