//! Where debug values and DBG_PHIs become undef.

ghost use Rattle.std.specs.Prelude.{◌≡◌};
ghost use Rattle.pass_liveness.specs.Sets.{has};
ghost use Rattle.scan_allot.specs.Silent.{is_silent};

use crate::named::NamedFunction;
use pass_liveness::set::PlaceSet;
use rv64_instr::reg::Reg;
use scan_stale::stale::StaleRegisters;

/// Whether a debug value or DBG_PHI of the register becomes undef where these registers are stale: it is one of them, or it
/// is virtual and no code names it. It takes no memory.
pub fn is_silent(f: &NamedFunction, stale: &StaleRegisters, set: &PlaceSet, r: Reg) -> bool
    ensures { result ≡ is_silent f.now (has stale.now.slots set.now) r }
{
    (r.number() >= 32 && !f.is_named(r)) || stale.contains(set, r)
}
