//! The addresses of symbols.

ghost use Rattle.std.specs.Prelude.{◌≡◌, ◌≢◌, ◌+◌, ◌<◌, ◌^◌, drop, slice_index, All, IfOk};
ghost use Rattle.elf_load.specs.Load;
ghost use Rattle.elf_load.specs.Load.{IsPlaced};

use base_list::List;
use elf_object::constants::SHN_UNDEF;
use elf_object::symbols::Symbol;
use std::alloc::{AllocError, Global};

/// Addresses, in the order of the symbols.
pub type Addresses = List<u64>;

/// The address of each symbol, for machine code at an address. `undefined` has those of undefined symbols in order.
pub fn symbol_addresses(
    alloc: Global,
    symbols: &[Symbol],
    base: u64,
    undefined: &[u64],
) -> Result<Addresses, AllocError>
    requires { All (IsPlaced base) symbols.now }
    ensures { IfOk result (λ addresses. addresses ≡ Load.addresses base undefined.now symbols.now) }
{
    let mut addresses = Addresses::new(alloc);
    let mut left = undefined;
    for symbol in symbols {
        if symbol.section == SHN_UNDEF {
            let (address, rest) = first(left);
            addresses.push(address)?;
            left = rest;
        } else {
            addresses.push(base + symbol.value)?;
        }
    }
    Ok(addresses)
}

/// The first address, 0 if there is none, and the others.
fn first(addresses: &[u64]) -> (u64, &[u64])
    ensures address { result.0 ≡ slice_index addresses.now 0 }
    ensures rest { result.1.now ≡ drop 1 addresses.now }
{
    match addresses {
        [address, rest @ ..] => (*address, rest),
        [] => (0, addresses),
    }
}
