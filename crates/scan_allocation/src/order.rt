//! The allocation order.

ghost use Rattle.std.specs.Prelude.{◌≡◌, ◌<◌, ◌&&◌, not, filter, All, IfOk};
ghost use Rattle.spill_select.specs.Incoming.{is_among};
ghost use Rattle.scan_allocation.specs.Walk.{ORDER, order_without};

use rv64_instr::reg::{Reg, Registers};
use spill_select::among::is_among;
use spill_select::scratch::register;
use std::alloc::{AllocError, Global};

/// The allocation order without the registers of a reserve and the scratch registers. The error is out of memory.
pub fn order_without(
    alloc: Global,
    reserve: &[Reg],
    scratch: &[Reg],
) -> Result<Registers, AllocError>
    ensures order { IfOk result (λ order. order ≡ order_without reserve.now scratch.now) }
    ensures physical { IfOk result (All (λ r. r < 32)) }
{
    let mut order = order(alloc)?;
    keep_others(reserve, scratch, &mut order.items);
    Ok(order)
}

fn keep_others(reserve: &[Reg], scratch: &[Reg], order: &mut Vec<Reg>)
    ensures { order.new.items ≡
        filter (λ r. not (is_among reserve.now r) && not (is_among scratch.now r)) order.old.items }
{
    order.retain(|r| !is_among(reserve, *r) && !is_among(scratch, *r));
}

/// The whole order.
fn order(alloc: Global) -> Result<Registers, AllocError>
    ensures { IfOk result (λ order. order ≡ ORDER) }
{
    Registers::from_slice(
        alloc,
        &[
            register(7),
            register(28),
            register(29),
            register(30),
            register(31),
            register(11),
            register(12),
            register(13),
            register(14),
            register(15),
            register(16),
            register(17),
            register(10),
            register(9),
            register(18),
            register(19),
            register(20),
            register(21),
            register(22),
            register(23),
            register(24),
            register(25),
            register(26),
            register(27),
            register(8),
        ],
    )
}
