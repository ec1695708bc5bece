//! The halves of addresses that are known when a program is linked.

ghost use Rattle.std.specs.Prelude.{◌≡◌, ◌<◌, ◌^◌, IsTrue, pos, negsuc};
ghost use Rattle.std.specs.Fmt.{decimal};
ghost use Rattle.std.specs.Option.{option_copied};
ghost use Rattle.rv64_instr.specs.Form.{is_within};
ghost use Rattle.rv64_instr.specs.Linked.{addresses_in, default_address, folded, folded_name};
ghost use Rattle.rv64_instr.specs.Linked.{half_immediate, immediate_value, is_same_symbol};
ghost use Rattle.rv64_instr.specs.Linked.{linked_address, linked_value};
ghost use Rattle.rv64_instr.specs.LocationEffects.{address_named, half_named, part_address, part_half};
ghost use Rattle.rv64_instr.specs.Row.{row_of};
ghost use Rattle.rv64_instr.specs.steps.Linked.{early_part};

use crate::arithmetic::extend32;
use crate::instr::Instr;
use crate::operand::Operand;
use crate::symbol::{Half, LinkedAddress, Symbol, SymbolAddresses};
use itoa::Buffer;

impl Instr {
    /// The address of which the instruction has a half, and `None` exactly if it has none. It takes no memory.
    pub fn linked_address(&self) -> Option<&LinkedAddress>
        ensures { option_copied result ≡ address_named (row_of self.now) }
    {
        early_address(self.operands.as_slice())
    }

    /// Which half of an address the instruction has, and `None` exactly if it has none. It takes no memory.
    pub fn linked_half(&self) -> Option<Half>
        ensures { result ≡ half_named (row_of self.now) }
    {
        early_half(self.operands.as_slice())
    }
}

fn early_address(operands: &[Operand]) -> Option<&LinkedAddress>
    ensures { option_copied result ≡ part_address (early_part operands.now) }
{
    match operands {
        [_, Operand::Part(_, address), ..] => Some(address),
        [_, _, Operand::Part(_, address), ..] => Some(address),
        _ => None,
    }
}

fn early_half(operands: &[Operand]) -> Option<Half>
    ensures { result ≡ part_half (early_part operands.now) }
{
    match operands {
        [_, Operand::Part(half, _), ..] => Some(*half),
        [_, _, Operand::Part(half, _), ..] => Some(*half),
        _ => None,
    }
}

/// The value of a half of an address, where symbols have these addresses. It takes no memory.
pub fn linked_value(symbols: &SymbolAddresses, half: Half, address: &LinkedAddress) -> u64
    ensures { result ≡ linked_value (addresses_in symbols.now) half address.now }
{
    immediate_value(half, half_immediate(half, linked_address(symbols, address)))
}

/// The value of the immediate of a half: that to which `LUI` sets a register, or the sign-extended number.
fn immediate_value(half: Half, immediate: i64) -> u64
    requires { IsTrue (is_within (negsuc 2047) (pos 1048575) immediate) }
    ensures { result ≡ immediate_value half immediate }
{
    match half {
        Half::Upper => extend32((immediate * 4096).cast_unsigned()),
        Half::Lower => immediate.cast_unsigned(),
    }
}

/// The address of a symbol plus a number of bytes, modulo 2^64, where symbols have these addresses. It takes no memory.
#[tactic(auto, unfolding(crate::specs::Linked::linked_address))]
pub fn linked_address(symbols: &SymbolAddresses, address: &LinkedAddress) -> u64
    ensures { result ≡ linked_address (addresses_in symbols.now) address.now }
{
    address_in(symbols, &address.symbol).wrapping_add(i64::from(address.addend).cast_unsigned())
}

/// The immediate that stands in an instruction's word for a half of an address (RISC-V ELF psABI, "Absolute
/// Addresses").
pub fn half_immediate(half: Half, address: u64) -> i64
    ensures { result ≡ half_immediate half address }
{
    match half {
        Half::Upper => upper_immediate(address),
        Half::Lower => lower_immediate(address),
    }
}

/// The upper 20 of the low 32 bits, and 1 more where the lower half is negative.
fn upper_immediate(address: u64) -> i64
    ensures { result ≡ half_immediate Half.Upper address }
{
    i64::from(((address / 4096 + address / 2048 % 2) % (1 << 20)) as u32)
}

/// The low 12 bits as a signed number.
#[tactic(auto, unfolding(crate::specs::Linked::half_immediate))]
fn lower_immediate(address: u64) -> i64
    ensures { result ≡ half_immediate Half.Lower address }
{
    let low = (address % 4096) as u32;
    if low < 2048 {
        i64::from(low)
    } else {
        i64::from(low) - 4096
    }
}

/// The address of a symbol.
fn address_in(symbols: &SymbolAddresses, symbol: &Symbol) -> u64
    ensures { result ≡ addresses_in symbols.now symbol.now }
{
    for pair in symbols.as_slice() {
        if is_same(&pair.0, symbol) {
            return pair.1;
        }
    }
    default_address(symbol)
}

/// The address of a symbol to which none is given: it depends on the symbol's name alone.
fn default_address(symbol: &Symbol) -> u64
    ensures { result ≡ default_address symbol.now }
{
    268_435_456 + 65_536 * (folded_name(symbol) % 4096)
}

fn folded_name(symbol: &Symbol) -> u64
    ensures { result ≡ folded_name symbol.now }
{
    match symbol {
        Symbol::Global(name) => folded(0, name.as_slice()),
        Symbol::Constant(number) => folded_number(folded(0, b"const"), *number),
    }
}

/// The fold of the decimal digits of a number.
fn folded_number(start: u64, number: u32) -> u64
    requires { start < 2 ^ 32 }
    ensures { result ≡ folded start (decimal number) }
{
    let mut buffer = Buffer::new();
    folded(start, buffer.format(number).as_bytes())
}

/// A fold of bytes, modulo 2^32.
fn folded(start: u64, bytes: &[u8]) -> u64
    requires { start < 2 ^ 32 }
    ensures value { result ≡ folded start bytes.now }
    ensures below { result < 2 ^ 32 }
{
    let mut sum = start;
    for byte in bytes {
        sum = (31 * sum + u64::from(*byte)) % (1 << 32);
    }
    sum
}

/// Whether the two are one symbol.
pub fn is_same(a: &Symbol, b: &Symbol) -> bool
    ensures { result ≡ is_same_symbol a.now b.now }
{
    match (a, b) {
        (Symbol::Global(a), Symbol::Global(b)) => a.as_slice() == b.as_slice(),
        (Symbol::Constant(a), Symbol::Constant(b)) => *a == *b,
        _ => false,
    }
}
