//! The machine code of a function: its words and entries.

use base_list::List;
use mir_func::framed::Framed;
use mir_func::position::{Origin, ProgramPoint};
use std::marker::Model;

/// An encoded instruction at its address. A call's two words are one entry, the two words of a long branch are two.
#[derive(Clone, Copy, Debug, PartialEq, Eq)]
pub struct EncodedInstruction {
    /// The address of its first byte.
    pub address: u64,
    /// Its size in bytes: 8 for a callee of a name, 4 otherwise.
    pub size: u32,
    /// The source position that it stands for, or that it was added before.
    pub origin: Origin,
    /// The point of its item in the function with its frame.
    pub point: ProgramPoint,
    /// Whether control goes to a function of a name.
    pub call: bool,
}

/// Entries, contiguous in the order of their addresses.
pub type Entries = List<EncodedInstruction>;

/// Words, in the order of their addresses.
pub type Words = List<u32>;

/// The machine code of a function (LLVM: a function in the text section). The entries are contiguous from its first
/// address, a multiple of 4 below 2^32, to the end of its words, of which there are fewer than 262,144. The function
/// has an item at each entry's point, which is a call if and only if the entry is one.
#[derive(Debug, Drop)]
pub struct Code {
    /// Its first address.
    pub base: u64,
    /// Its words.
    pub words: Words,
    /// Its entries, in the order of their addresses.
    pub entries: Entries,
    /// The function with its frame.
    pub framed: Framed,
}

impl Model for Code {
    ghost use Rattle.emit_code.specs.Laid.{LaidCode};

    ghost Value = { LaidCode };

    ghost use Rattle.emit_code.specs.Laid.{IsCode};

    ghost view = { λ c. record { base = c.base; words = c.words; entries = c.entries; framed = c.framed } };

    ghost invariant = { λ c. IsCode (record {
      base = c.base;
      words = c.words;
      entries = c.entries;
      framed =
          c.framed;
    }) };
}
