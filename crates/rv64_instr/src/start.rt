//! The start of a run, the calls that it makes, and the replies to them.

use crate::name::Name;
use crate::symbol::SymbolAddresses;
use base_list::List;

/// Register contents, in a stated order.
pub type Values = List<u64>;

/// Bytes of memory as pairs of an address and its byte. The last pair of an address counts, and every other
/// byte is 0.
pub type Cells = List<(u64, u8)>;

/// The registers and the memory with which a run starts, and the addresses of symbols.
#[derive(Debug, Drop)]
pub struct Start {
    /// The content of x0 to x31.
    pub regs: [u64; 32],
    /// The bytes of memory that are not 0.
    pub memory: Cells,
    /// The addresses of symbols, which stay as they are.
    pub symbols: SymbolAddresses,
}

/// What a call goes to.
#[derive(Debug, Drop)]
pub enum CallTarget {
    /// The function of this name.
    Function(Name),
    /// The code at this address.
    Address(u64),
}

/// A call that a run makes.
#[derive(Debug, Drop)]
pub struct CallEvent {
    /// The function or the code that is called.
    pub target: CallTarget,
    /// The contents of the registers that the call uses implicitly, in text order, x2 left out.
    pub args: Values,
    /// The call's number in its run, from 1.
    pub number: u64,
}

/// The reply to a call.
#[derive(Clone, Copy, Debug)]
pub struct CallResult {
    /// The new contents of the caller-saved registers x1, x5 to x7, x10 to x17 and x28 to x31, in this order
    /// (RISC-V ELF psABI, "Integer Register Convention").
    pub regs: [u64; 16],
    /// Up to eight bytes that it writes, each with its address, in order.
    pub writes: [Option<(u64, u8)>; 8],
}
