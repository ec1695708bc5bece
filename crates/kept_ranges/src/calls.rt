//! Code from which control goes to a callee.

ghost use Rattle.std.specs.Prelude.{◌≡◌};
ghost use Rattle.rv64_instr.specs.Decoded.{Shows};
ghost use Rattle.rv64_instr.specs.Row.{Row};
ghost use Rattle.kept_ranges.specs.Calls.{goes_to_callee, goes_from};

use mir_func::item::ItemKind;
use rv64_instr::decoded::{Decoded, Way};

/// Whether control goes to a callee from an item: it calls one, or leaves for one.
pub fn goes_from(kind: &ItemKind) -> bool
    ensures { result ≡ goes_from kind.now }
{
    match kind {
        ItemKind::Code(instr, _) => goes_to_callee(instr.decoded()),
        ItemKind::Mark(_, _) => false,
        ItemKind::Phi(_, _) => false,
    }
}

fn goes_to_callee(decoded: Decoded) -> bool
    ensures { (row : Row) → Shows decoded row → result ≡ goes_to_callee row }
{
    match decoded {
        Decoded::Calls(_) => true,
        Decoded::Returns(Way::Tail(_)) => true,
        Decoded::Returns(Way::Never(_)) => true,
        Decoded::Returns(Way::Back)
        | Decoded::Fixes(_, _)
        | Decoded::Moves(_, _)
        | Decoded::Sets(_, _, _, _)
        | Decoded::Addresses(_, _, _)
        | Decoded::Loads(_, _, _, _)
        | Decoded::Stores(_, _, _, _)
        | Decoded::LoadsSlot(_, _)
        | Decoded::StoresSlot(_, _)
        | Decoded::Branches(_, _, _, _)
        | Decoded::Jumps(_) => false,
    }
}
