//! What a function is as data: its items; its code, where its variable is, and what its runs show.

use rv64_instr::op::ImmediateOp::Addi;
use rv64_instr::op::LoadOp::Ld;
use rv64_instr::op::Op;
use rv64_instr::op::StoreOp::Sd;

/// An operand: a register by its number; a half of the address of the global `g` plus a number of bytes, or of constant
/// 0 of the pool; a slot; a fixed object; a slot that a call passes; a block; the name of what is called; or a call's register mask.
pub enum Word {
    Def(u32),
    Use(u32),
    Gives(u32),
    Takes(u32),
    Imm(i64),
    Upper(i32),
    Lower(i32),
    UpperOfConstant,
    LowerOfConstant,
    Slot(u32),
    Object(u32),
    Passes(u32),
    Target(u32),
    Called(&'static str),
    Mask,
}

/// An item: code, also with debug instruction number 1; or the variable is assigned the content of a register, or
/// operand 0 of the instruction with number 1.
pub enum Line {
    Code(Op, &'static [Word]),
    Numbered(Op, &'static [Word]),
    At(u32),
    Refers,
}

/// What a word comes from: an item by its block and its index, or what is added before one.
pub enum Source {
    Item(u32, u32),
    Before(u32, u32),
}

/// How a run ends: it returns; or it leaves for a function of a name or for the code at the address in a register, by a
/// call in tail position or by one that doesn't return.
pub enum End {
    Returned,
    Tailed(&'static str),
    TailedBy(u32),
    Gone(&'static str),
    GoneBy(u32),
}

/// What a function has on the stack: a slot, by its number; or a fixed object, by its number, its size in bytes, its
/// offset from x2 at entry, and its offset from the lowest byte of the objects' area.
pub enum Stored {
    Slot(u32),
    Fixed(u32, u32, i32, u64),
}

/// Where a variable is: in a register, or in the eight bytes at an offset from x2.
pub enum Home {
    In(u32),
    Above(u32),
}

/// A step: its address, and what its word comes from.
pub type Step = (u64, Source);

/// A function and what is seen of it.
pub struct Row {
    /// What it has on the stack.
    pub stack: &'static [Stored],
    /// The items of its blocks.
    pub blocks: &'static [&'static [Line]],
    /// The texts of its items, one after the other; empty where no text is read as them.
    pub text: &'static str,
    /// Whether the pass `copy` runs before it is compiled.
    pub copies: bool,
    /// The arguments of its run, from x10 on.
    pub arguments: &'static [u64],
    /// What a call gives in x10 and x11.
    pub answer: (u64, u64),
    /// Its words.
    pub words: &'static [u32],
    /// Where its variable is at addresses from the first to before the second. Without a range it has no variable.
    pub ranges: &'static [(u64, u64, Home)],
    /// The value of its variable where it is somewhere, and by its last assignment.
    pub value: u64,
    /// The steps of its run.
    pub steps: &'static [Step],
    /// How its run ends.
    pub end: End,
    /// Registers and their contents at the end.
    pub held: &'static [(u32, u64)],
}

pub const ADDI: Op = Op::Immediate(Addi);

pub const LD: Op = Op::Load(Ld);

pub const SD: Op = Op::Store(Sd);

/// A return with x10.
pub const RETURN: Line = Line::Code(Op::PseudoRet, &[Word::Takes(10)]);
