//! The kinds of refusals.

ghost use Rattle.std.specs.Prelude.{◌≡◌, ◌≤◌};
ghost use Rattle.read_refusal.specs.Kind.{number_of, name_of};

/// Why a line is refused. Kinds are numbered from 1 on, in this order.
#[derive(Clone, Copy, Debug, PartialEq, Eq)]
pub enum RefusalKind {
    /// A byte begins no token.
    BadByte,
    /// A quote isn't closed on its line.
    UnclosedString,
    /// A line doesn't fit into the sequence of documents.
    BadDocument,
    /// A line has no accepted form.
    BadLine,
    /// An opcode isn't supported.
    UnknownOpcode,
    /// The operands of an instruction or a debug line don't fit its opcode, or a number is above its limit.
    BadOperands,
    /// A branch target is no block of the function.
    UnknownBlock,
    /// Two blocks have the same number.
    DuplicateBlock,
    /// The debug instruction number of an instruction is also that of another item.
    DuplicateNumber,
    /// A virtual register; only physical registers are supported.
    VirtualRegister,
    /// An instruction names the stack pointer explicitly.
    StackPointerUse,
    /// A stack entry has an unsupported form or a number that is taken, isn't declared, or is named where none is
    /// allowed; or an access is outside its stack object.
    StackObject,
    /// A limit is exceeded.
    TooMany,
    /// A block doesn't end in one of the supported forms.
    BlockEnd,
}

impl RefusalKind {
    /// Its number, from 1 to 14.
    pub fn number(self) -> u32
        ensures value { result ≡ number_of self }
        ensures greatest { result ≤ 14 }
    {
        match self {
            RefusalKind::BadByte => 1,
            RefusalKind::UnclosedString => 2,
            RefusalKind::BadDocument => 3,
            RefusalKind::BadLine => 4,
            RefusalKind::UnknownOpcode => 5,
            RefusalKind::BadOperands => 6,
            RefusalKind::UnknownBlock => 7,
            RefusalKind::DuplicateBlock => 8,
            RefusalKind::DuplicateNumber => 9,
            RefusalKind::VirtualRegister => 10,
            RefusalKind::StackPointerUse => 11,
            RefusalKind::StackObject => 12,
            RefusalKind::TooMany => 13,
            RefusalKind::BlockEnd => 14,
        }
    }

    /// Its name.
    pub fn name(self) -> &'static str
        ensures { result.now ≡ name_of self }
    {
        match self {
            RefusalKind::BadByte => "BadByte",
            RefusalKind::UnclosedString => "UnclosedString",
            RefusalKind::BadDocument => "BadDocument",
            RefusalKind::BadLine => "BadLine",
            RefusalKind::UnknownOpcode => "UnknownOpcode",
            RefusalKind::BadOperands => "BadOperands",
            RefusalKind::UnknownBlock => "UnknownBlock",
            RefusalKind::DuplicateBlock => "DuplicateBlock",
            RefusalKind::DuplicateNumber => "DuplicateNumber",
            RefusalKind::VirtualRegister => "VirtualRegister",
            RefusalKind::StackPointerUse => "StackPointerUse",
            RefusalKind::StackObject => "StackObject",
            RefusalKind::TooMany => "TooMany",
            RefusalKind::BlockEnd => "BlockEnd",
        }
    }
}
