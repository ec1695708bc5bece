//! Machine code with a call of `g`, loaded with `g` at different addresses: the words of AUIPC and JALR by the RISC-V
//! psABI, at both ends of their reach and where the lower part's sign changes.

ghost use Rattle.std.specs.Prelude.{◌≡◌};

use base_list::List;
use elf_load::load::{LoadError, load};
use elf_object::constants::{R_RISCV_CALL_PLT, SHN_UNDEF};
use elf_object::relocations::Relocation;
use elf_object::symbols::{Binding, Symbol, SymbolType};
use std::alloc::Global;
use std::test::Fail;

/// The code of `f`, with the call at 16.
static TEXT: [u8; 44] = [
    0x13, 1, 1, 0xff, 0x23, 0x30, 0x11, 0, 0x23, 0x34, 0x21, 1, 0x13, 9, 5, 0, 0x97, 0, 0, 0, 0xe7,
    0x80, 0, 0, 0x33, 5, 0x25, 1, 0x83, 0x30, 1, 0, 3, 0x39, 0x81, 0, 0x13, 1, 1, 1, 0x67, 0x80, 0,
    0,
];

/// Where the code and `g` lie, and the bytes of the call. It has none if `g` is out of reach.
struct Row {
    base: u64,
    g: u64,
    call: &'static [u8],
}

static ROWS: &[Row] = &[
    Row {
        base: 0x10000,
        g: 0x20000,
        call: &[0x97, 0, 1, 0, 0xe7, 0x80, 0, 0xff],
    },
    Row {
        base: 0,
        g: 0x1_0000_0000,
        call: &[],
    },
    // the farthest address above the call, and the next one
    Row {
        base: 0,
        g: 0x7fff_f80f,
        call: &[0x97, 0xf0, 0xff, 0x7f, 0xe7, 0x80, 0xf0, 0x7f],
    },
    Row {
        base: 0,
        g: 0x7fff_f810,
        call: &[],
    },
    // the farthest one below, and the next one
    Row {
        base: 0x1_0000_0000,
        g: 0x7fff_f810,
        call: &[0x97, 0, 0, 0x80, 0xe7, 0x80, 0, 0x80],
    },
    Row {
        base: 0x1_0000_0000,
        g: 0x7fff_f80f,
        call: &[],
    },
    // the call itself, and where the upper part is rounded up
    Row {
        base: 0x10000,
        g: 0x10010,
        call: &[0x97, 0, 0, 0, 0xe7, 0x80, 0, 0],
    },
    Row {
        base: 0x10000,
        g: 0x1080f,
        call: &[0x97, 0, 0, 0, 0xe7, 0x80, 0xf0, 0x7f],
    },
    Row {
        base: 0x10000,
        g: 0x10811,
        call: &[0x97, 0x10, 0, 0, 0xe7, 0x80, 0x10, 0x80],
    },
];

/// The limit on the address of the code, exclusive.
const LIMIT: u64 = 0x2_0000_0000;

/// A symbol without a name.
fn symbol(alloc: Global, section: u16) -> Symbol
    ensures section { result.section ≡ section }
    ensures value { result.value ≡ 0 }
{
    Symbol {
        name: List::new(alloc),
        binding: Binding::Global,
        symbol_type: SymbolType::Function,
        section,
        value: 0,
        size: 0,
    }
}

/// Whether bytes are the code with this call.
fn has_call(loaded: &[u8], call: &[u8]) -> bool {
    loaded.len() == 44
        && &loaded[..16] == &TEXT[..16]
        && &loaded[16..24] == call
        && &loaded[24..] == &TEXT[24..]
}

/// Whether the code of a row has its call, or `g` is out of reach.
fn is_loaded(alloc: Global, row: &Row) -> bool {
    if row.base >= LIMIT {
        return false;
    }
    let symbols = [symbol(alloc, 1), symbol(alloc, SHN_UNDEF)];
    let relocations = [Relocation {
        offset: 16,
        symbol: 2,
        relocation_type: R_RISCV_CALL_PLT,
        addend: 0,
    }];
    match load(alloc, &TEXT, &symbols, &relocations, row.base, &[row.g]) {
        Ok(loaded) => has_call(loaded.as_slice(), row.call),
        Err(LoadError::OutOfReach(index)) => index == 0 && row.call.is_empty(),
        Err(LoadError::Memory) => false,
    }
}

#[test]
fn calls_lead_where_they_are_to(rt: HostRuntime) -> Result<(), Fail> {
    for row in ROWS {
        assert!(rt; is_loaded(rt.alloc(), row));
    }
    Ok(())
}
