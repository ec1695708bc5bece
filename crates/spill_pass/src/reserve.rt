//! Which registers may be spilled.

ghost use Rattle.std.specs.Prelude.{◌≡◌, filter, IfOk};
ghost use Rattle.rv64_instr.specs.Reserve.{RESERVABLE};
ghost use Rattle.spill_proof.specs.spill_select.Incoming.{is_among};
ghost use Rattle.spill_pass.specs.Reserve.{reserve_of};

use rv64_instr::reg::{Reg, Registers};
use spill_proof::spill_select_crate::among::is_among;
use spill_proof::spill_select_crate::scratch::register;
use std::alloc::{AllocError, Global};

/// The registers that may be spilled, in ascending order: the callee-saved registers x8, x9 and x18 to x27 (RISC-V ELF
/// psABI: s0 to s11).
pub fn reservable(alloc: Global) -> Result<Registers, AllocError>
    ensures { IfOk result (λ registers. registers ≡ RESERVABLE) }
{
    Registers::from_slice(
        alloc,
        &[
            register(8),
            register(9),
            register(18),
            register(19),
            register(20),
            register(21),
            register(22),
            register(23),
            register(24),
            register(25),
            register(26),
            register(27),
        ],
    )
}

/// Those of these registers that may be spilled, without duplicates, in ascending order.
pub fn reserve_of(alloc: Global, registers: &[Reg]) -> Result<Registers, AllocError>
    ensures { IfOk result (λ reserve. reserve ≡ reserve_of registers.now) }
{
    let mut reserve = reservable(alloc)?;
    keep_among(registers, &mut reserve.items);
    Ok(reserve)
}

fn keep_among(registers: &[Reg], reserve: &mut Vec<Reg>)
    ensures { reserve.new.items ≡ filter (is_among registers.now) reserve.old.items }
{
    reserve.retain(|r| is_among(registers, *r));
}
