//! Registers that are live into a function, as a list.

ghost use Rattle.std.specs.Prelude.{◌≡◌};
ghost use Rattle.spill_select.specs.Incoming.{is_among};

use pass_liveness::rv64_instr_crate::reg::Reg;

/// Whether a register is one of these.
pub fn is_among(registers: &[Reg], r: Reg) -> bool
    ensures { result ≡ is_among registers.now r }
{
    registers.iter().any(|s| s.number() == r.number())
}
