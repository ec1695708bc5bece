//! The words of instructions when the program is linked.

ghost use Rattle.std.specs.Prelude.{◌≡◌, Some};
ghost use Rattle.rv64_instr.specs.Arithmetic as arithmetic;
ghost use Rattle.rv64_instr.specs.Decoded.{Shows};
ghost use Rattle.rv64_instr.specs.Linked.{addresses_in, half_immediate};
ghost use Rattle.rv64_instr.specs.LocationEffects.{address_named};
ghost use Rattle.rv64_instr.specs.Row.{Row, row_of};
ghost use Rattle.rv64_instr.specs.View.{class_of};
ghost use Rattle.rv64_word.specs.Linked.{linked_word, part_format, refilled, with_immediate};

use crate::format::{EncodingField, Format};
use rv64_instr::decoded::Decoded;
use rv64_instr::instr::Instr;
use rv64_instr::linked::{half_immediate, linked_address};
use rv64_instr::symbol::{Half, LinkedAddress, SymbolAddresses};

/// The word of an instruction when the program is linked, where symbols have these addresses: itself if the
/// instruction has no half of an address. It takes no memory.
pub fn linked_word(i: &Instr, word: u32, symbols: &SymbolAddresses) -> u32
    ensures { result ≡ linked_word (addresses_in symbols.now) (row_of i.now) word }
{
    match i.linked_address() {
        Some(address) => with_address(i, word, symbols, address),
        None => word,
    }
}

/// The word of an instruction that has a half of this address.
fn with_address(i: &Instr, word: u32, symbols: &SymbolAddresses, address: &LinkedAddress) -> u32
    ensures { address_named (row_of i.now) ≡ Some address.now
        → result ≡ linked_word (addresses_in symbols.now) (row_of i.now) word }
{
    match i.linked_half() {
        Some(half) => with_half(half, linked_address(symbols, address), &i.decoded(), word),
        None => word,
    }
}

/// A word of code that does this, with this half of this address.
fn with_half(half: Half, address: u64, decoded: &Decoded, word: u32) -> u32
    ensures { (row : Row) → Shows decoded.now row
        → result ≡ with_immediate (part_format half (class_of row)) (half_immediate half address) word }
{
    let format = part_format(half, decoded);
    with_immediate(format, half_immediate(half, address), word)
}

/// The format of code that does this and has a half of an address.
fn part_format(half: Half, decoded: &Decoded) -> Format
    ensures { (row : Row) → Shows decoded.now row → result ≡ part_format half (class_of row) }
{
    match half {
        Half::Upper => Format::Upper,
        Half::Lower => lower_format(decoded),
    }
}

fn lower_format(decoded: &Decoded) -> Format
    ensures { (row : Row) → Shows decoded.now row → result ≡ part_format Half.Lower (class_of row) }
{
    match *decoded {
        Decoded::Stores(_, _, _, _) => Format::Store,
        Decoded::Fixes(_, _)
        | Decoded::Moves(_, _)
        | Decoded::Sets(_, _, _, _)
        | Decoded::Addresses(_, _, _)
        | Decoded::Loads(_, _, _, _)
        | Decoded::LoadsSlot(_, _)
        | Decoded::StoresSlot(_, _)
        | Decoded::Branches(_, _, _, _)
        | Decoded::Jumps(_)
        | Decoded::Calls(_)
        | Decoded::Returns(_) => Format::Immediate,
    }
}

/// A word of a format with another immediate in it.
#[tactic(auto, unfolding(crate::specs::Linked::with_immediate))]
fn with_immediate(format: Format, immediate: i64, word: u32) -> u32
    ensures { result ≡ with_immediate format immediate word }
{
    let mut made = 0;
    for slice in format.slices() {
        made = (made << slice.width) | slice.of(refilled(format, immediate, word, slice.field));
    }
    made
}

/// The value of a field of the word, but the immediate is another.
fn refilled(format: Format, immediate: i64, word: u32, field: EncodingField) -> u64
    ensures { result ≡ refilled format (arithmetic.word immediate) word field }
{
    match field {
        EncodingField::Imm => immediate.cast_unsigned(),
        EncodingField::Opcode => u64::from(format.read(EncodingField::Opcode, word)),
        EncodingField::Rd => u64::from(format.read(EncodingField::Rd, word)),
        EncodingField::Funct3 => u64::from(format.read(EncodingField::Funct3, word)),
        EncodingField::Rs1 => u64::from(format.read(EncodingField::Rs1, word)),
        EncodingField::Rs2 => u64::from(format.read(EncodingField::Rs2, word)),
        EncodingField::Funct7 => u64::from(format.read(EncodingField::Funct7, word)),
    }
}
