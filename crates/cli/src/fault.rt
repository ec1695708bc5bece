//! The faults of a run.

ghost use Rattle.std.specs.Prelude.{◌≡◌};
ghost use Rattle.cli.specs.Fault.{input_line, name_of, status_of};
ghost use Rattle.cli.specs.declared.fault.Fault.TheVariants.{Memory};

use crate::status::Status;
use read_refusal::first::Refusal;
use std::alloc::AllocError;

/// Why a run failed.
#[derive(Clone, Copy, Debug, PartialEq, Eq)]
pub enum Fault {
    /// The words are no command.
    Usage,
    /// Reading the input failed.
    Read,
    /// The input has more bytes than the limit.
    TooLong,
    /// A line of the input is refused.
    Refused(Refusal),
    /// The input has no function.
    NoFunction,
    /// The input has no function with the name in the command.
    UnknownFunction,
    /// Linear scan leaves a virtual register in a function.
    NoRegister,
    /// The frame of a function would have more than 2,032 bytes.
    FrameTooLarge,
    /// The name of a function, or of a function that is called, can't be a symbol's: it is empty or has a zero byte.
    SymbolName,
    /// A section of the output, or an object, would have 2^31 bytes or more.
    SectionTooLarge,
    /// Writing the output failed.
    Write,
    /// Memory ran out.
    Memory,
}

impl From<AllocError> for Fault {
    ghost from_gives = { λ _ fault. fault ≡ Memory };

    fn from(_: AllocError) -> Fault {
        Fault::Memory
    }
}

impl Fault {
    /// The line of the input that the fault is about, counted from 1; 0 if it is about the whole input, and `None` if
    /// it isn't about the input's content.
    pub fn input_line(self) -> Option<u32>
        ensures { result ≡ input_line self }
    {
        match self {
            Fault::Refused(refusal) => Some(refusal.line),
            Fault::TooLong | Fault::NoFunction | Fault::UnknownFunction => Some(0),
            Fault::NoRegister | Fault::FrameTooLarge => Some(0),
            Fault::SymbolName | Fault::SectionTooLarge => Some(0),
            Fault::Usage | Fault::Read | Fault::Write | Fault::Memory => None,
        }
    }

    /// The name of the fault.
    pub fn name(self) -> &'static str
        ensures { result.now ≡ name_of self }
    {
        match self {
            Fault::Usage => "usage",
            Fault::Read => "read",
            Fault::TooLong => "TooLong",
            Fault::Refused(refusal) => refusal.kind.name(),
            Fault::NoFunction => "NoFunction",
            Fault::UnknownFunction => "UnknownFunction",
            Fault::NoRegister => "NoRegister",
            Fault::FrameTooLarge => "FrameTooLarge",
            Fault::SymbolName => "SymbolName",
            Fault::SectionTooLarge => "SectionTooLarge",
            Fault::Write => "write",
            Fault::Memory => "memory",
        }
    }

    /// The status of a run that ends in this fault.
    pub fn status(self) -> Status
        ensures { result ≡ status_of self }
    {
        match self {
            Fault::Usage => Status::Usage,
            Fault::Read => Status::ReadFault,
            Fault::TooLong | Fault::Refused(_) | Fault::NoFunction => Status::Refused,
            Fault::UnknownFunction => Status::Refused,
            Fault::NoRegister | Fault::FrameTooLarge => Status::Refused,
            Fault::SymbolName | Fault::SectionTooLarge => Status::Refused,
            Fault::Write => Status::WriteFault,
            Fault::Memory => Status::Memory,
        }
    }
}
