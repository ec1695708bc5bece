//! The listed lines of items, from the entries of the code.

ghost use Rattle.std.specs.Prelude.{◌≡◌, ℕ, List, [], ◌∷◌, ◌++◌, IsTrue, All, Some, drop, IfOk, OnOk};
ghost use Rattle.std.specs.List.{flat_map};
ghost use Rattle.rv64_instr.specs.Form.{has_form};
ghost use Rattle.mir_func.specs.Function.{FramedFunction};
ghost use Rattle.mir_func.specs.declared.item.ItemKind.TheVariants.{Code};
ghost use Rattle.mir_func.specs.Successors.{pos_in};
ghost use Rattle.emit_code.specs.declared.code.EncodedInstruction.{EncodedInstruction as Laid};
ghost use Rattle.emit_code.specs.Rule.{Layout, Site, entries_at, sites_in};
ghost use Rattle.emit_code.specs.Listed.{by_pointer, listed};
ghost use Rattle.emit_code.specs.steps.Plans.{AreOffsetsOf};
ghost use Rattle.listing_meaning.specs.Listing.{site_lines, line_at};
ghost use Rattle.listing_function.specs.steps.Entries.{IsLow, first_address, second_address, is_same_point};
ghost use Rattle.listing_function.specs.steps.Entries.{BeginsApart, StandsAt, IsSource, IsPlaced};
ghost use Rattle.listing_function.specs.steps.Operands.{branch_by};
ghost use Rattle.listing_function.specs.steps.Lines.{long_by, long_lines};

use crate::branch::{Branch, branch_of, jump, skip};
use crate::lowered::listed;
use base_ids::function_ids::DebugNumber;
use emit_code::code::EncodedInstruction;
use emit_code::objects::ObjectOffsets;
use listing_text::output::{ItemLine, Line, Lines};
use mir_func::item::{Item, ItemKind};
use mir_func::position::ProgramPoint;
use rv64_instr::instr::Instr;
use std::alloc::{AllocError, Global};

/// A long conditional branch.
#[derive(Drop)]
struct Long {
    /// The address of its jump.
    jump: u32,
    /// The branch.
    branch: Branch,
}

/// Appends the lines of items whose entries begin at index `start`. Returns the index after their entries.
pub(crate) fn push_items(
    alloc: Global,
    lines: &mut Lines,
    entries: &[EncodedInstruction],
    offsets: &ObjectOffsets,
    start: usize,
    items: &[Item],
) -> Result<usize, AllocError>
    requires { All IsLow entries.now }
    ensures { (l : Layout) (b : ℕ) (others : List Laid) → IsSource l offsets.now →
        All (λ i. IsPlaced l.framed i.kind) items.now → ((n : ℕ) → BeginsApart (pos_in b n) others) →
        drop start entries.now ≡ flat_map (entries_at l) (sites_in b 0 items.now) ++ others →
        IfOk result (λ end. (lines.new ≡ lines.old ++ flat_map (site_lines l) (sites_in b 0 items.now)) ×
        (drop end entries.now ≡ others)) }
{
    let mut at = start;
    for item in items {
        at = push_item(alloc, lines, entries, offsets, at, item)?;
    }
    Ok(at)
}

fn push_item(
    alloc: Global,
    lines: &mut Lines,
    entries: &[EncodedInstruction],
    offsets: &ObjectOffsets,
    at: usize,
    item: &Item,
) -> Result<usize, AllocError>
    requires { All IsLow entries.now }
    ensures { (l : Layout) (s : Site) (others : List Laid) → IsSource l offsets.now → IsPlaced l.framed s.item.kind →
        StandsAt l entries.now at s others → item.now ≡ s.item →
        IfOk result (λ next. (lines.new ≡ lines.old ++ site_lines l s) × (drop next entries.now ≡ others)) }
{
    match &item.kind {
        ItemKind::Code(i, number) => {
            push_code(alloc, lines, entries, offsets, at, item, i, *number)
        }
        ItemKind::Mark(_, _) | ItemKind::Phi(_, _) => {
            let item = item.copy()?;
            lines.push(Line::Item(ItemLine {
                address: None,
                item,
            }))?;
            Ok(at)
        }
    }
}

fn push_code(
    alloc: Global,
    lines: &mut Lines,
    entries: &[EncodedInstruction],
    offsets: &ObjectOffsets,
    at: usize,
    item: &Item,
    i: &Instr,
    number: Option<DebugNumber>,
) -> Result<usize, AllocError>
    requires { All IsLow entries.now }
    ensures { (l : Layout) (s : Site) (others : List Laid) → IsSource l offsets.now →
        IsPlaced l.framed (Code i.now number) → StandsAt l entries.now at s others → item.now ≡ s.item →
        Code i.now number ≡ s.item.kind →
        IfOk result (λ next. (lines.new ≡ lines.old ++ site_lines l s) × (drop next entries.now ≡ others)) }
{
    let _ = &i.op;
    let Some(address) = address(entries, at) else {
        return Ok(at);
    };
    match long_of(entries, at, i) {
        Some(long) => {
            push_long(alloc, lines, address, &long, item, i, number)?;
            Ok(at + 2)
        }
        None => {
            push_one(alloc, lines, address, offsets, item, i, number)?;
            Ok(at + 1)
        }
    }
}

/// Appends the lines of a long branch.
fn push_long(
    alloc: Global,
    lines: &mut Lines,
    address: u32,
    long: &Long,
    item: &Item,
    i: &Instr,
    number: Option<DebugNumber>,
) -> Result<(), AllocError>
    ensures { OnOk result (lines.new ≡ lines.old ++ long_lines address long.now item.now i.now.operands number) }
{
    let branch = &long.branch;
    lines.push(skip(alloc, address, &item.origin, branch, i.operands.as_slice())?)?;
    lines.push(jump(alloc, long.jump, item, branch.target, number)?)
}

/// Appends the line of an instruction.
fn push_one(
    alloc: Global,
    lines: &mut Lines,
    address: u32,
    offsets: &ObjectOffsets,
    item: &Item,
    i: &Instr,
    number: Option<DebugNumber>,
) -> Result<(), AllocError>
    ensures { (f : FramedFunction) → AreOffsetsOf f offsets.now →
        IsTrue (has_form i.now.op (by_pointer f i.now.operands)) →
        OnOk result (lines.new ≡ lines.old ++ line_at (Some address) item.now (Code (listed f i.now) number) ∷ []) }
{
    match listed(alloc, offsets, i)? {
        Some(i) => lines.push(code_line(address, item, i, number)),
        None => Ok(()),
    }
}

/// The long branch of an instruction whose entries begin at index `at`, if it is one.
fn long_of(entries: &[EncodedInstruction], at: usize, i: &Instr) -> Option<Long>
    requires { All IsLow entries.now }
    ensures { result ≡ long_by (second_address (drop at entries.now)) (branch_by i.now.op i.now.operands) }
{
    let jump = second(entries, at)?;
    let branch = branch_of(i)?;
    Some(Long { jump, branch })
}

/// The line of an instruction of an item.
fn code_line(address: u32, item: &Item, i: Instr, number: Option<DebugNumber>) -> Line
    ensures { result ≡ line_at (Some address) item.now (Code i number) }
{
    Line::Item(ItemLine {
        address: Some(address),
        item: Item {
            kind: ItemKind::Code(i, number),
            origin: item.origin,
            loc: item.loc,
        },
    })
}

/// The address of the entry at an index, if there is one.
fn address(entries: &[EncodedInstruction], at: usize) -> Option<u32>
    requires { All IsLow entries.now }
    ensures { result ≡ first_address (drop at entries.now) }
{
    match entries.get(at) {
        Some(entry) => Some(entry.address as u32),
        None => None,
    }
}

/// The address of the entry after an index, if both entries are of the same point.
fn second(entries: &[EncodedInstruction], at: usize) -> Option<u32>
    requires { All IsLow entries.now }
    ensures { result ≡ second_address (drop at entries.now) }
{
    if entries.len() <= at {
        return None;
    }
    match &entries[at..] {
        [first, next, ..] if is_same(&first.point, &next.point) => Some(next.address as u32),
        _ => None,
    }
}

fn is_same(p: &ProgramPoint, q: &ProgramPoint) -> bool
    ensures { result ≡ is_same_point p.now q.now }
{
    p.block.number() == q.block.number() && p.item == q.item
}
