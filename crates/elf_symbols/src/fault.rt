//! The first wrong field of a symbol table, and of the table of its names.

ghost use Rattle.std.specs.Prelude.{◌≡◌, ◌-◌, ◌*◌, ◌^◌, ◌<◌, ◌≤◌, ◌||◌, false, length, drop};
ghost use Rattle.elf_symbols.specs.FirstFault;
ghost use Rattle.elf_symbols.specs.FirstFault.{count_in, name_in};

use crate::entry::{byte_at, entry};
use elf_object::constants::*;
use elf_object::fault::{behind, constants, name_len};
use elf_object::number::u32_at;

/// Where symbols and the table of their names are first wrong.
#[derive(Clone, Copy, Debug, PartialEq, Eq)]
pub enum SymbolsFault {
    /// A field of the symbol table, which begins at this byte, counted from 0.
    Table(usize),
    /// The table of names, at this byte. The symbol table is right.
    Names(usize),
}

/// The sizes of the fields of a symbol (Elf64_Sym).
static SYMBOL_SIZES: [u8; 6] = [4, 1, 1, 2, 8, 8];
/// The null symbol.
static NULL_SYMBOL: [u8; 24] = [0; 24];
/// The limit on the offsets behind names, exclusive: those of names have 32 bits.
const NAMES_LIMIT: usize = 0x1_0000_0000;

/// The first wrong field of a symbol table and of the table of its names. `None` if and only if they are those of
/// symbols.
pub fn first_fault(table: &[u8], names: &[u8]) -> Option<SymbolsFault>
    ensures { result ≡ FirstFault.first_fault table.now names.now }
{
    match table_end(table, names) {
        Err(at) => Some(SymbolsFault::Table(at)),
        Ok(end) => in_names(names_fault(names, end)),
    }
}

/// A fault of the table of names.
fn in_names(fault: Option<usize>) -> Option<SymbolsFault>
    ensures { result ≡ FirstFault.in_names fault }
{
    match fault {
        Some(at) => Some(SymbolsFault::Names(at)),
        None => None,
    }
}

/// The number of symbols in a table, as far as they are whole, but for the null one.
pub fn symbol_count(table: &[u8]) -> usize
    ensures exact { result ≡ count_in table.now }
    ensures whole { 24 * result ≤ length table.now - 24 }
{
    (table.len() / 24).saturating_sub(1)
}

/// The first wrong field of the null symbol.
fn null_fault(table: &[u8]) -> Option<usize>
    ensures { result ≡ FirstFault.null_fault table.now }
{
    constants(table, 0, &SYMBOL_SIZES, &NULL_SYMBOL)
}

/// Where the names of symbols end in the table of names. The error is the first wrong field of the symbol table.
fn table_end(table: &[u8], names: &[u8]) -> Result<usize, usize>
    ensures { result ≡ FirstFault.table_end table.now names.now }
{
    if let Some(at) = null_fault(table) {
        return Err(at);
    }
    let count = symbol_count(table);
    names_end(table, names, count)
}

/// Where the names of so many symbols after the null one end in the table of names, if the symbol table ends behind
/// them. The error is the first wrong field.
fn names_end(table: &[u8], names: &[u8], count: usize) -> Result<usize, usize>
    requires { 24 * count ≤ length table.now - 24 }
    ensures { result ≡ FirstFault.names_end names.now 24 false 1 count (drop 24 table.now) }
{
    let mut others = false;
    let mut name_at: usize = 1;
    for index in 0..count {
        let at = 24 * (index + 1);
        let symbol = entry(table, at);
        if let Some(wrong) = symbol_fault(names, at, others, name_at, symbol) {
            return Err(wrong);
        }
        others = is_behind_other(others, symbol);
        name_at = next_name(names, name_at, symbol);
    }
    let last = 24 * (count + 1);
    ended(last, name_at, behind(table, last as u64))
}

/// The end of the names, if no byte of the table is left. The error is the offset of those that are.
fn ended(at: usize, name_at: usize, rest: &[u8]) -> Result<usize, usize>
    ensures { result ≡ FirstFault.ended at name_at rest.now }
{
    match rest {
        [] => Ok(name_at),
        _ => Err(at),
    }
}

/// The first wrong field of the symbol at the front of bytes, which stand at an offset in the table. `others` tells
/// whether a symbol before it isn't local, and the names before its own end at `name_at`.
#[tactic(auto, unfolding(crate::specs::FirstFault::symbol_fault))]
fn symbol_fault(
    names: &[u8],
    at: usize,
    others: bool,
    name_at: usize,
    symbol: &[u8],
) -> Option<usize>
    requires at { at < 2 ^ 63 }
    requires name_at { name_at < 2 ^ 32 }
    requires long { 24 ≤ length symbol.now }
    ensures { result ≡ FirstFault.symbol_fault names.now at others name_at symbol.now }
{
    if !is_name_at(names, name_at, u32_at(symbol, 0) as usize) {
        return Some(at);
    }
    if !is_info(others, byte_at(symbol, 4)) {
        return Some(at + 4);
    }
    if byte_at(symbol, 5) != STV_DEFAULT {
        return Some(at + 5);
    }
    None
}

/// Whether an offset is that of a symbol's name: 0 for no name, and otherwise where the names before it end.
#[tactic(auto, unfolding(crate::specs::FirstFault::is_name_at))]
fn is_name_at(names: &[u8], name_at: usize, name: usize) -> bool
    requires { name_at < 2 ^ 32 }
    ensures { result ≡ FirstFault.is_name_at names.now name_at name }
{
    name == 0 || (name == name_at && is_string_at(names, name_at))
}

/// Whether a string that isn't empty begins at an offset, and is closed within the reach of offsets.
#[tactic(auto, unfolding(crate::specs::FirstFault::is_string_at))]
fn is_string_at(names: &[u8], at: usize) -> bool
    requires { at < 2 ^ 32 }
    ensures { result ≡ FirstFault.is_string_at names.now at }
{
    let len = name_len(names, at);
    0 < len && (at + len + 1 <= names.len() && at + len + 1 < NAMES_LIMIT)
}

/// Whether st_info has the number of a binding that may stand here, and of a type.
#[tactic(auto, unfolding(crate::specs::FirstFault::is_info))]
fn is_info(others: bool, info: u8) -> bool
    ensures { result ≡ FirstFault.is_info others info }
{
    is_binding(others, info / 16) && is_type(info % 16)
}

/// Whether a number is that of a binding. A local symbol may stand behind no other.
fn is_binding(others: bool, number: u8) -> bool
    ensures { result ≡ FirstFault.is_binding others number }
{
    if others {
        STB_GLOBAL <= number && number <= STB_WEAK
    } else {
        number <= STB_WEAK
    }
}

/// Whether a number is that of a symbol's type.
fn is_type(number: u8) -> bool
    ensures { result ≡ FirstFault.is_type number }
{
    number == STT_NOTYPE || (number == STT_FUNC || number == STT_SECTION)
}

/// Whether a symbol before the next one isn't local.
fn is_behind_other(others: bool, symbol: &[u8]) -> bool
    requires { 24 ≤ length symbol.now }
    ensures { result ≡ (others || FirstFault.is_other symbol.now) }
{
    others || STB_LOCAL < byte_at(symbol, 4) / 16
}

/// Where the names up to that of a symbol end.
fn next_name(names: &[u8], name_at: usize, symbol: &[u8]) -> usize
    requires name_at { name_at < 2 ^ 32 }
    requires long { 24 ≤ length symbol.now }
    ensures { result ≡ FirstFault.next_name names.now name_at (name_in symbol.now) }
{
    if u32_at(symbol, 0) == 0 {
        name_at
    } else {
        name_at + name_len(names, name_at) + 1
    }
}

/// The first wrong byte of the table of names, where the last name ends at an offset.
#[tactic(auto, unfolding(crate::specs::FirstFault::names_fault))]
fn names_fault(names: &[u8], end: usize) -> Option<usize>
    ensures { result ≡ FirstFault.names_fault names.now end }
{
    if !is_zero_first(names) {
        return Some(0);
    }
    if names.len() != end {
        return Some(end);
    }
    None
}

/// Whether the first byte is zero.
fn is_zero_first(names: &[u8]) -> bool
    ensures { result ≡ FirstFault.is_zero_first names.now }
{
    match names {
        [first, ..] => *first == 0,
        [] => false,
    }
}
