//! Where physical registers are blocked.

ghost use Rattle.std.specs.Prelude.{◌≡◌, ◌<◌, List, take, drop};
ghost use Rattle.std.specs.List.{list_any};
ghost use Rattle.scan_intervals.specs.Points.{CodePoint};
ghost use Rattle.scan_intervals.specs.Intervals.{is_clear};
ghost use Rattle.scan_intervals.specs.Blocked.{has_register, AreBlocked, is_unmasked};

use crate::interval::LiveInterval;
use rv64_instr::reg::Reg;

/// The physical registers that each code of a function blocks.
#[derive(Drop)]
pub struct BlockedRegisters {
    /// A mask for each code, in the order of the text: bit R is set if the code blocks xR.
    pub masks: Vec<u32>,
}

impl BlockedRegisters {
    /// Whether the register is blocked nowhere in the interval. It takes no memory.
    pub fn is_clear(&self, i: &LiveInterval, r: Reg) -> bool
        requires { r < 32 }
        ensures masks { result ≡ is_unmasked self.now.masks.items i.now r }
        ensures points { (points : List CodePoint) → AreBlocked points self.now.masks.items →
            result ≡ is_clear points i.now r }
    {
        is_unmasked(self.masks.as_slice(), i, r)
    }
}

/// Whether no mask of the interval's points has the register.
fn is_unmasked(masks: &[u32], i: &LiveInterval, r: Reg) -> bool
    requires { r < 32 }
    ensures { result ≡ is_unmasked masks.now i.now r }
{
    let count = (i.end as usize + 1).saturating_sub(i.start as usize);
    !has_any(front(behind(masks, i.start as usize), count), r)
}

/// The masks behind so many.
fn behind(masks: &[u32], count: usize) -> &[u32]
    ensures { result.now ≡ drop count masks.now }
{
    if count < masks.len() {
        let (_, rest) = masks.split_at(count);
        return rest;
    }
    let (_, none) = masks.split_at(masks.len());
    none
}

/// So many masks.
fn front(masks: &[u32], count: usize) -> &[u32]
    ensures { result.now ≡ take count masks.now }
{
    if count < masks.len() {
        let (front, _) = masks.split_at(count);
        return front;
    }
    masks
}

/// Whether the register's bit is set in some mask.
fn has_any(masks: &[u32], r: Reg) -> bool
    requires { r < 32 }
    ensures { result ≡ list_any (has_register r) masks.now }
{
    for mask in masks {
        if has_register(*mask, r) {
            return true;
        }
    }
    false
}

fn has_register(mask: u32, r: Reg) -> bool
    requires { r < 32 }
    ensures { result ≡ has_register r mask }
{
    (mask >> r.number()) & 1 == 1
}
