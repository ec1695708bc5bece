//! The masks of the physical registers that code blocks.

ghost use Rattle.std.specs.Prelude.{◌≡◌, ◌<◌, ◌||◌, ◌&&◌, nat_eq, ℕ, None};
ghost use Rattle.rv64_instr.specs.declared.place.Place.TheVariants.{Register};
ghost use Rattle.rv64_instr.specs.Decoded.{Shows};
ghost use Rattle.rv64_instr.specs.Row.{row_of};
ghost use Rattle.rv64_instr.specs.LocationEffects.{defines_of};
ghost use Rattle.mir_func.specs.declared.item.ItemKind.TheVariants.{Code};
ghost use Rattle.pass_trait.specs.Causes.{names};
ghost use Rattle.pass_liveness.specs.Sets.{has};
ghost use Rattle.scan_intervals.specs.Blocked.{has_register};

use pass_liveness::names::SlotAndBlockNumbers;
use pass_liveness::set::PlaceSet;
use rv64_instr::decoded::Decoded;
use rv64_instr::instr::Instr;
use rv64_instr::place::Place;
use rv64_instr::reg::Reg;
use scan_allocation::spill_rule_crate::named::code_names;
use scan_allocation::spill_select_crate::scratch::register;

/// The mask of code after which these places are live: bit R is set if the code blocks xR.
pub(crate) fn mask_of(numbers: &SlotAndBlockNumbers, after: &PlaceSet, i: &Instr) -> u32
    ensures { (r : ℕ) → r < 32 → has_register r result ≡ (names r (Code i.now None) ||
        (defines_of (row_of i.now) (Register r) || has numbers.now.slots after.now (Register r))) }
{
    let decoded = i.decoded();
    let mut mask: u32 = 0;
    for r in 0..32u32 {
        let blocked = is_blocked(numbers, after, i, &decoded, register(r));
        mask = with_bit(mask, r, blocked);
    }
    mask
}

/// The mask with one bit more, if that is to be set.
fn with_bit(mask: u32, r: u32, set: bool) -> u32
    requires { r < 32 }
    ensures { (q : ℕ) → has_register q result ≡ ((set && nat_eq r q) || has_register q mask) }
{
    if set { mask | (1 << r) } else { mask }
}

/// Whether code after which these places are live blocks the register: names or sets it, or it is live after it.
fn is_blocked(
    numbers: &SlotAndBlockNumbers,
    after: &PlaceSet,
    i: &Instr,
    decoded: &Decoded,
    r: Reg,
) -> bool
    requires { Shows decoded.now (row_of i.now) }
    ensures { result ≡ (names r (Code i.now None) ||
        (defines_of (row_of i.now) (Register r) || has numbers.now.slots after.now (Register r))) }
{
    code_names(r, i) || (decoded.sets_register(r) || numbers.has(after, Place::Register(r)))
}
