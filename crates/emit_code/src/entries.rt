//! The entries of a function's machine code.

ghost use Rattle.std.specs.Prelude.{◌≡◌, ◌<◌, ◌+◌, ◌++◌, ◌^◌, ◌∷◌, [], slice_index, true, false, IfOk, OnOk, length};
ghost use Rattle.std.specs.List.{flat_map};
ghost use Rattle.mir_func.specs.declared.position.Pos.{Pos};
ghost use Rattle.emit_code.specs.Rule.{Layout, Site, entries_of, entries_at, sites_in, entry, added_before};
ghost use Rattle.emit_code.specs.steps.Places.{items_count};
ghost use Rattle.emit_code.specs.steps.Plans.{IsPlan};
ghost use Rattle.emit_code.specs.steps.Emitted.{StandsAt, AllStandAt, point_of};

use crate::code::{EncodedInstruction, Entries};
use crate::plan::ItemLayout;
use crate::span::Span;
use base_ids::function_ids::BlockIndex;
use mir_func::block::Block;
use mir_func::item::Item;
use mir_func::position::{Origin, ProgramPoint};
use std::alloc::{AllocError, Global};

/// The entries of blocks by their plan, in the order of their addresses. The error is out of memory.
pub fn entries(alloc: Global, plan: &ItemLayout, blocks: &[Block]) -> Result<Entries, AllocError>
    requires blocks { length blocks.now < 2 ^ 32 }
    requires items { items_count blocks.now < 2 ^ 32 }
    ensures { (l : Layout) → IsPlan l plan.now → l.framed.blocks ≡ blocks.now →
        IfOk result (λ entries. entries ≡ entries_of l) }
{
    let mut entries = Entries::new(alloc);
    for (index, block) in blocks.iter().enumerate() {
        push_block(&mut entries, plan, index as u32, block.items.as_slice())?;
    }
    Ok(entries)
}

/// Appends the entries of the items of a block.
fn push_block(
    entries: &mut Entries,
    plan: &ItemLayout,
    block: u32,
    items: &[Item],
) -> Result<(), AllocError>
    requires { length items.now < 2 ^ 32 }
    ensures { (l : Layout) → AllStandAt l plan.now (slice_index plan.now.table.firsts block) block items.now →
        OnOk result (entries.new ≡ entries.old ++ flat_map (entries_at l) (sites_in block 0 items.now)) }
{
    let first = plan.table.first(block as usize) as usize;
    for (index, item) in items.iter().enumerate() {
        let point = ProgramPoint {
            block: BlockIndex(block),
            item: index as u32,
        };
        push_item(entries, plan, first + index, &point, &item.origin)?;
    }
    Ok(())
}

fn push_item(
    entries: &mut Entries,
    plan: &ItemLayout,
    index: usize,
    point: &ProgramPoint,
    origin: &Origin,
) -> Result<(), AllocError>
    ensures { (l : Layout) (s : Site) → StandsAt l plan.now index s → point.now ≡ point_of s.point →
        origin.now ≡ s.item.origin →
        OnOk result (entries.new ≡ entries.old ++ entries_at l s) }
{
    let address = plan.address(index);
    match plan.span(index) {
        Span::Nothing => Ok(()),
        Span::OneWord | Span::Short(_) => entries.push(word_entry(address, origin, point)),
        Span::CallSite => entries.push(call_entry(address, origin, point)),
        Span::Long(_) => push_long(entries, address, origin, point),
    }
}

/// Appends the two entries of a long branch.
fn push_long(
    entries: &mut Entries,
    address: u64,
    origin: &Origin,
    point: &ProgramPoint,
) -> Result<(), AllocError>
    requires { address < 2 ^ 33 }
    ensures { (p : Pos) → point.now ≡ point_of p →
        OnOk result (entries.new ≡ entries.old ++ (entry address 4 (added_before origin.now) p false ∷ entry
        (address + 4) 4 origin.now p false ∷ [])) }
{
    entries.push(word_entry(address, &added_before(origin), point))?;
    entries.push(word_entry(address + 4, origin, point))
}

fn word_entry(address: u64, origin: &Origin, point: &ProgramPoint) -> EncodedInstruction
    ensures { (p : Pos) → point.now ≡ point_of p → result ≡ entry address 4 origin.now p false }
{
    EncodedInstruction {
        address,
        size: 4,
        origin: *origin,
        point: *point,
        call: false,
    }
}

fn call_entry(address: u64, origin: &Origin, point: &ProgramPoint) -> EncodedInstruction
    ensures { (p : Pos) → point.now ≡ point_of p → result ≡ entry address 8 origin.now p true }
{
    EncodedInstruction {
        address,
        size: 8,
        origin: *origin,
        point: *point,
        call: true,
    }
}

/// The origin of a word added before the position of an item.
fn added_before(origin: &Origin) -> Origin
    ensures { result ≡ added_before origin.now }
{
    match *origin {
        Origin::Kept(position) | Origin::Before(position) => Origin::Before(position),
    }
}
