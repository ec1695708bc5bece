//! The losses of debug values and DBG_PHIs of scratch registers.

ghost use Rattle.std.specs.Prelude.{◌≡◌, ◌++◌, IfOk, OnOk};
ghost use Rattle.pass_trait.specs.Order.{IsInOrder};
ghost use Rattle.spill_code.specs.Rewrite.{slot_of};
ghost use Rattle.spill_debug.specs.Lost.{AreMarksLost, AreScratchLosses, is_silent, number_silenced, mark_silenced};
ghost use Rattle.spill_debug.specs.Lost.{numbers_silenced, marks_silenced, all_numbers_silenced, all_marks_silenced};

use crate::marks::is_scratch;
use base_ids::function_ids::DebugNumber;
use mir_func::block::Block;
use mir_func::item::{Item, ItemKind};
use mir_func::position::{Origin, Pos};
use mir_func::variable::MarkValue;
use pass_trait::loss::{Loss, Losses, Lost, Reason};
use pass_trait::nops::lost_numbers;
use rv64_instr::place::Place;
use rv64_instr::reg::Reg;
use spill_code::spilling::{Spilling, slot_of};
use std::alloc::{AllocError, Global};

/// The losses of a function's blocks to scratch registers: the numbers of their DBG_PHIs, and their debug values,
/// without duplicates and in order.
pub fn scratch_losses(alloc: Global, s: &Spilling, blocks: &[Block]) -> Result<Losses, AllocError>
    ensures ordered { IfOk result IsInOrder }
    ensures each { IfOk result (AreScratchLosses s.now blocks.now) }
{
    let numbers = all_numbers_silenced(alloc, s, blocks)?;
    let marks = all_marks_silenced(alloc, s, blocks)?;
    let mut losses = lost_numbers(alloc, numbers, Reason::Scratch)?;
    let lost = lost_marks(alloc, marks, Reason::Scratch)?;
    losses.extend_from_slice(lost.as_slice())?;
    Ok(losses)
}

fn all_numbers_silenced(
    alloc: Global,
    s: &Spilling,
    blocks: &[Block],
) -> Result<Vec<DebugNumber>, AllocError>
    ensures { IfOk result (λ ns. ns.items ≡ all_numbers_silenced s.now blocks.now) }
{
    let mut numbers = Vec::new(alloc);
    for b in blocks {
        push_numbers(s, b.items.as_slice(), &mut numbers)?;
    }
    Ok(numbers)
}

fn push_numbers(
    s: &Spilling,
    items: &[Item],
    numbers: &mut Vec<DebugNumber>,
) -> Result<(), AllocError>
    ensures { OnOk result (numbers.new.items ≡ numbers.old.items ++ numbers_silenced s.now items.now) }
{
    for i in items {
        if let Some(n) = number_silenced(s, &i.kind) {
            numbers.push(n)?;
        }
    }
    Ok(())
}

fn all_marks_silenced(alloc: Global, s: &Spilling, blocks: &[Block]) -> Result<Vec<Pos>, AllocError>
    ensures { IfOk result (λ ps. ps.items ≡ all_marks_silenced s.now blocks.now) }
{
    let mut marks = Vec::new(alloc);
    for b in blocks {
        push_marks(s, b.items.as_slice(), &mut marks)?;
    }
    Ok(marks)
}

fn push_marks(s: &Spilling, items: &[Item], marks: &mut Vec<Pos>) -> Result<(), AllocError>
    ensures { OnOk result (marks.new.items ≡ marks.old.items ++ marks_silenced s.now items.now) }
{
    for i in items {
        if let Some(p) = mark_silenced(s, &i.kind, i.origin) {
            marks.push(p)?;
        }
    }
    Ok(())
}

/// The number of a DBG_PHI of a scratch register.
fn number_silenced(s: &Spilling, kind: &ItemKind) -> Option<DebugNumber>
    ensures { result ≡ number_silenced s.now kind.now }
{
    match kind {
        ItemKind::Phi(Some(Place::Register(r)), n) if is_scratch(s, *r) => Some(*n),
        _ => None,
    }
}

/// The position of a debug value of a scratch register.
fn mark_silenced(s: &Spilling, kind: &ItemKind, origin: Origin) -> Option<Pos>
    ensures { result ≡ mark_silenced s.now kind.now origin }
{
    match kind {
        ItemKind::Mark(_, MarkValue::At(r)) if is_silent(s, *r) => match origin {
            Origin::Kept(p) | Origin::Before(p) => Some(p),
        },
        _ => None,
    }
}

/// Whether it is a scratch register that isn't spilled.
fn is_silent(s: &Spilling, r: Reg) -> bool
    ensures { result ≡ is_silent s.now r (slot_of s.now.homes r) }
{
    match slot_of(s.homes.as_slice(), r) {
        None => is_scratch(s, r),
        Some(_) => false,
    }
}

/// The losses of the debug values from these positions for one reason, without duplicates and in order.
pub fn lost_marks(alloc: Global, marks: Vec<Pos>, why: Reason) -> Result<Losses, AllocError>
    ensures ordered { IfOk result IsInOrder }
    ensures each { IfOk result (AreMarksLost marks.items why) }
{
    let mut marks = marks;
    marks.sort_unstable();
    marks.dedup();
    let mut losses = Losses::new(alloc);
    for p in &marks {
        losses.push(Loss {
            what: Lost::Mark(*p),
            reason: why,
        })?;
    }
    Ok(losses)
}
