//! Which registers a frame saves.

ghost use Rattle.std.specs.Prelude.{◌≡◌, ◌<◌, IfOk};
ghost use Rattle.std.specs.List.{list_any};
ghost use Rattle.rv64_instr.specs.Row.{Row};
ghost use Rattle.rv64_instr.specs.Decoded.{Shows};
ghost use Rattle.frame_rule.specs.Rule.{never_returns, sets_register, is_set, saved_registers};

use mir_func::block::Block;
use mir_func::item::{Item, ItemKind};
use rv64_instr::decoded::{Decoded, Way};
use rv64_instr::place::Place;
use rv64_instr::reg::{Reg, Registers, physical};
use std::alloc::{AllocError, Global};

/// The registers that a frame may save: the return address and the callee-saved registers (RISC-V ELF psABI, "Integer
/// Register Convention": ra, s0 to s11).
pub const SAVED: [u32; 13] = [1, 8, 9, 18, 19, 20, 21, 22, 23, 24, 25, 26, 27];

/// The registers that the frame of a function with these blocks saves, in ascending order.
pub fn saved_registers(alloc: Global, blocks: &[Block]) -> Result<Registers, AllocError>
    ensures { IfOk result (λ registers. registers ≡ saved_registers blocks.now) }
{
    let mut saved = Registers::new(alloc);
    for n in SAVED {
        let register = register(n);
        if is_set(blocks, register) {
            saved.push(register)?;
        }
    }
    Ok(saved)
}

/// The register xN.
pub fn register(n: u32) -> Reg
    requires { n < 32 }
    ensures { result ≡ n }
{
    match physical(n) {
        Some(r) => r,
        None => unreachable!(),
    }
}

/// Whether some code of the blocks sets the register.
fn is_set(blocks: &[Block], r: Reg) -> bool
    ensures { result ≡ is_set blocks.now r }
{
    blocks.iter().any(|b| is_set_in(b.items.as_slice(), r))
}

/// Whether some code among the items sets the register.
fn is_set_in(items: &[Item], r: Reg) -> bool
    ensures { result ≡ list_any (λ i. sets_register r i.kind) items.now }
{
    items.iter().any(|i| sets_register(&i.kind, r))
}

/// Whether the item is code that sets the register.
fn sets_register(kind: &ItemKind, r: Reg) -> bool
    ensures { result ≡ sets_register r kind.now }
{
    match kind {
        ItemKind::Code(i, _) => {
            i.defines(Place::Register(r)) || (r.number() == 1 && never_returns(&i.decoded()))
        }
        ItemKind::Mark(_, _) | ItemKind::Phi(_, _) => false,
    }
}

/// Whether code calls what doesn't return, with the return address in ra.
fn never_returns(decoded: &Decoded) -> bool
    ensures { (row : Row) → Shows decoded.now row → result ≡ never_returns row }
{
    match *decoded {
        Decoded::Returns(Way::Never(_)) => true,
        Decoded::Returns(Way::Back)
        | Decoded::Returns(Way::Tail(_))
        | Decoded::Fixes(_, _)
        | Decoded::Moves(_, _)
        | Decoded::Sets(_, _, _, _)
        | Decoded::Addresses(_, _, _)
        | Decoded::Loads(_, _, _, _)
        | Decoded::Stores(_, _, _, _)
        | Decoded::LoadsSlot(_, _)
        | Decoded::StoresSlot(_, _)
        | Decoded::Branches(_, _, _, _)
        | Decoded::Jumps(_)
        | Decoded::Calls(_) => false,
    }
}
