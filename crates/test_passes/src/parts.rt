//! Applies parts of passes to the function of a text.

ghost use Rattle.std.specs.Prelude.{◌+◌, ◌*◌, ◌<◌, ◌^◌, [], IsTrue};
ghost use Rattle.mir_func.specs.Limits.{MAX_SLOTS};
ghost use Rattle.pass_liveness.specs.Liveness.{AreLiveSets};
ghost use Rattle.pass_trait.specs.Sizes.{greatest, greatest_number, most_numbers};

use crate::shown::{push_blocks, push_entries, push_items, push_losses};
use base_ids::function_ids::{DebugNumber, SlotId};
use base_list::List;
use dce_analysis::judge::judge;
use fold_pass::fold::fold;
use linear_scan::scan::ScanPass;
use mir_func::block::copy_blocks;
use mir_func::func::Func;
use mir_func::item::Item;
use mir_printer::text::{Text, push_numbered, push_str};
use mir_substitution::substitutions::Substitutions;
use pass_liveness::live::Live;
use pass_liveness::set::PlaceSet;
use pass_salvage::above::Above;
use pass_salvage::fresh::greatest_in_blocks;
use pass_salvage::lookup::Lookup;
use pass_salvage::salvage::{put_phi, salvage};
use pass_salvage::salvage_action::SalvageAction;
use pass_trait::loss::Losses;
use pass_trait::pass::Pass;
use read_program::closing::Parsed;
use read_program::program::read_program;
use rv64_instr::place::Place;
use rv64_instr::reg::{Reg, Registers, physical};
use spill_pass::spill::SpillPass;
use std::alloc::{AllocError, Global};
use std::test::Fail;

/// What is run on a function.
pub enum Part {
    /// Liveness, and which items are dead: for each block a line with the places that are live at its start, past it,
    /// and at its start by a walk up its items; and then for each block a line with `-` for each item that is dead.
    /// Places are the numbers of registers, and `s` for slot 0.
    Lives,
    /// Folding by the rule for code.
    Folded,
    /// The copy at this index, of number 1 and of x11, is taken out, where the items whose flags are set go too. The
    /// fresh number is 100.
    TakenOut(usize, &'static [bool]),
    /// Spilling from each of these reserves, one after the other.
    Spilled(&'static [&'static [u32]]),
    /// Linear scan with this reserve.
    Scanned(&'static [u32]),
}

/// What a part makes of the first function of a text.
pub fn made(alloc: Global, part: &Part, text: &str) -> Result<Text, Fail> {
    let mut parsed = function_of(alloc, text)?;
    let mut made = Text::new(alloc);
    push_made(alloc, part, &mut parsed, &mut made)?;
    Ok(made)
}

/// The first function of a text.
pub fn function_of(alloc: Global, text: &str) -> Result<Parsed, Fail> {
    let bytes = text.as_bytes();
    if 10_000 < bytes.len() {
        return Err(Fail::from("a long text"));
    }
    let mut functions = read_program(alloc, false, bytes)?.functions.into_vec();
    Ok(functions.pop().ok_or("a function")?)
}

fn push_made(alloc: Global, part: &Part, parsed: &mut Parsed, text: &mut Text) -> Result<(), Fail> {
    match part {
        Part::Lives => push_lives(alloc, &parsed.func, text)?,
        Part::Folded => push_folded(alloc, &mut parsed.func, text)?,
        Part::TakenOut(at, removed) => push_left(alloc, parsed, *at, removed, text)?,
        Part::Spilled(reserves) => push_spilled(alloc, &mut parsed.func, reserves, text)?,
        Part::Scanned(reserve) => push_scanned(alloc, &mut parsed.func, reserve, text)?,
    }
    Ok(())
}

fn push_lives(alloc: Global, f: &Func, text: &mut Text) -> Result<(), AllocError> {
    let live = Live::solve(alloc, f)?;
    push_live(f, &live, text)?;
    let verdicts = judge(alloc, f, &live)?;
    push_verdicts(verdicts.as_slice(), text)
}

fn push_live(f: &Func, live: &Live, text: &mut Text) -> Result<(), AllocError>
    requires { AreLiveSets f.now live.now }
{
    for block in 0..f.blocks.len() {
        let mut set = live.past_block(f, block);
        push_places(live, &live.at_start(block), text)?;
        push_str(text, ";")?;
        push_places(live, &set, text)?;
        push_str(text, ";")?;
        walk_up(live, &mut set, f.blocks.as_slice()[block].items.as_slice());
        push_places(live, &set, text)?;
        push_str(text, "\n")?;
    }
    Ok(())
}

fn push_places(live: &Live, set: &PlaceSet, text: &mut Text) -> Result<(), AllocError> {
    for n in 0..32u32 {
        if let Some(r) = physical(n) {
            if live.contains(set, Place::Register(r)) {
                push_numbered(text, " ", n)?;
            }
        }
    }
    if live.contains(set, Place::Slot(SlotId(0))) {
        push_str(text, " s")?;
    }
    Ok(())
}

fn walk_up(live: &Live, set: &mut PlaceSet, items: &[Item]) {
    for item in items.iter().rev() {
        live.step_up(set, &item.kind);
    }
}

fn push_verdicts(blocks: &[List<bool>], text: &mut Text) -> Result<(), AllocError> {
    for block in blocks {
        for dead in block.as_slice() {
            push_str(text, if *dead { "-" } else { "+" })?;
        }
        push_str(text, "\n")?;
    }
    Ok(())
}

fn push_folded(alloc: Global, f: &mut Func, text: &mut Text) -> Result<(), AllocError> {
    let _losses = fold(alloc, f)?;
    push_blocks(text, f.blocks.as_slice())
}

/// Takes a copy out, and appends what is left; a walk and an index of the items above have to agree.
fn push_left(
    alloc: Global,
    parsed: &Parsed,
    at: usize,
    removed: &[bool],
    text: &mut Text,
) -> Result<(), Fail> {
    let by_walk = left(alloc, parsed, at, removed, false)?;
    let by_index = left(alloc, parsed, at, removed, true)?;
    if by_walk.as_slice() != by_index.as_slice() {
        return Err(Fail::from("an index finds another way than a walk"));
    }
    text.extend_from_slice(by_walk.as_slice())?;
    Ok(())
}

/// The items that are left of the first block without a copy, the substitutions and the next fresh number.
fn left(
    alloc: Global,
    parsed: &Parsed,
    at: usize,
    removed: &[bool],
    by_index: bool,
) -> Result<Text, Fail> {
    let mut blocks = copy_blocks(alloc, parsed.func.blocks.as_slice())?.into_vec();
    let mut subs = parsed.subs.copy()?;
    match blocks.first_mut() {
        Some(block) => left_of(
            alloc,
            &mut block.items.items,
            &mut subs,
            at,
            removed,
            by_index,
        ),
        None => Err(Fail::from("a block")),
    }
}

/// The same of items.
fn left_of(
    alloc: Global,
    items: &mut Vec<Item>,
    subs: &mut Substitutions,
    at: usize,
    removed: &[bool],
    by_index: bool,
) -> Result<Text, Fail> {
    let fresh = take_out(alloc, items, subs, at, removed, by_index)?;
    let mut text = Text::new(alloc);
    push_rest(&mut text, items.as_slice(), subs, fresh)?;
    Ok(text)
}

/// Appends items, substitutions and a fresh number.
fn push_rest(
    text: &mut Text,
    items: &[Item],
    subs: &Substitutions,
    fresh: u32,
) -> Result<(), AllocError> {
    push_items(text, items)?;
    push_entries(text, subs.entries())?;
    push_numbered(text, "fresh ", fresh)?;
    push_str(text, "\n")
}

/// Takes a copy out, and returns the next fresh number.
fn take_out(
    alloc: Global,
    items: &mut Vec<Item>,
    subs: &mut Substitutions,
    at: usize,
    removed: &[bool],
    by_index: bool,
) -> Result<u32, Fail> {
    if items.len() <= at {
        return Err(Fail::from("too few items"));
    }
    let number = DebugNumber(1);
    let source = Reg::new(11).ok_or("a register")?;
    let mut fresh: u32 = 100;
    let mut lookup = if by_index {
        Lookup::Index(Above::of(alloc, &items[..at], subs)?)
    } else {
        Lookup::Walk
    };
    let action = salvage(
        alloc,
        items,
        at,
        subs,
        &mut lookup,
        removed,
        number,
        source,
        &mut fresh,
    )?;
    if action == SalvageAction::GetsPhi {
        put_phi(&mut items[at], number, source);
    } else {
        items.remove(at);
    }
    Ok(fresh)
}

/// Spills, and appends what each spilling loses, the function behind them all, and how many slots it has.
fn push_spilled(
    alloc: Global,
    f: &mut Func,
    reserves: &[&[u32]],
    text: &mut Text,
) -> Result<(), Fail> {
    for reserve in reserves {
        let mut pass = pass_of(alloc, reserve)?;
        spill(alloc, &mut pass, f, text)?;
    }
    push_function(f, text)?;
    Ok(())
}

/// Appends a function's blocks, and how many slots it has.
fn push_function(f: &Func, text: &mut Text) -> Result<(), AllocError> {
    push_blocks(text, f.blocks.as_slice())?;
    let slots = u32::try_from(f.slots.len()).unwrap_or(u32::MAX);
    push_numbered(text, "slots ", slots)?;
    push_str(text, "\n")
}

fn pass_of(alloc: Global, numbers: &[u32]) -> Result<SpillPass, Fail> {
    let reserve = registers_of(alloc, numbers)?;
    Ok(SpillPass { reserve })
}

/// The physical registers of these numbers.
fn registers_of(alloc: Global, numbers: &[u32]) -> Result<Registers, Fail> {
    let mut registers = Registers::new(alloc);
    for n in numbers {
        registers.push(physical(*n).ok_or("a register")?)?;
    }
    Ok(registers)
}

/// Appends what is lost, and the substitutions.
fn push_changes(text: &mut Text, losses: &Losses, subs: &Substitutions) -> Result<(), AllocError> {
    push_losses(text, losses.as_slice())?;
    push_entries(text, subs.entries())
}

fn spill(alloc: Global, pass: &mut SpillPass, f: &mut Func, text: &mut Text) -> Result<(), Fail> {
    if !is_small(f) {
        return Err(Fail::from("a large function"));
    }
    let mut subs = Substitutions::new(alloc);
    let losses = pass.run(alloc, f, &mut subs)?;
    push_changes(text, &losses, &subs)?;
    Ok(())
}

/// Scans, and appends what is lost, the substitutions and the function.
fn push_scanned(alloc: Global, f: &mut Func, numbers: &[u32], text: &mut Text) -> Result<(), Fail> {
    if !is_small(f) {
        return Err(Fail::from("a large function"));
    }
    let reserve = registers_of(alloc, numbers)?;
    let mut pass = ScanPass { reserve };
    let mut subs = Substitutions::new(alloc);
    let losses = pass.run(alloc, f, &mut subs)?;
    push_changes(text, &losses, &subs)?;
    push_function(f, text)?;
    Ok(())
}

/// Whether a function has one short block and at most one slot, and small numbers. Then spilling and linear scan have
/// room.
fn is_small(f: &Func) -> bool
    ensures numbers { IsTrue result → greatest_number f.now [] + most_numbers 4 1 f.now < 2 ^ 31 }
    ensures slots { IsTrue result → greatest f.now.slots + MAX_SLOTS * 1 < 2 ^ 31 }
{
    let few = match f.blocks.as_slice() {
        [b] => b.items.as_slice().len() < 1_000,
        _ => false,
    };
    let low = match f.slots.as_slice() {
        [] => true,
        [slot] => slot.number() < 1_000,
        _ => false,
    };
    few && low && greatest_in_blocks(f.blocks.as_slice()) < 1_000
}
