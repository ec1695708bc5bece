//! The live-in values of places: after a copy, a call and debug values of overlapping parts.

use crate::text::{pair, part, register};
use base_ids::function_ids::DebugNumber;
use mir_func::item::ItemKind;
use mir_func::variable::MarkValue;
use mir_substitution::substitutions::Substitutions;
use rv64_instr::instr::Instr;
use rv64_instr::op::Op;
use rv64_instr::operand::{Operand, Operands};
use std::alloc::Global;
use std::collections::HashMap;
use std::test::Fail;
use value_solver::entry::{Bits, BlockEntry, Numbers};
use value_solver::tracked::Tracked;
use value_tracker::index::{TrackedIndex, index_of, number_class};
use value_tracker::location_tracker::{LocationTracker, PLACES};
use value_tracker::part_list::PartList;
use value_tracker::pass::Block;
use value_tracker::start::settle;

/// An item.
enum Step {
    /// A copy to a register from another, with its debug instruction number.
    Copy(u32, u32, u32),
    /// A mark of the four bytes of variable 4 from an offset on: operand 0 of the instruction with a number.
    ByNumber(u32, u32),
    /// The same: what a register has.
    ByRegister(u32, u32),
}

/// An item; and behind it a place, its class, and the classes of the parts.
type Row = (Step, usize, usize, [usize; 3]);

/// A copy, marks of parts that overlap, and a copy to x2.
const ROWS: &[Row] = &[
    (Step::Copy(11, 10, 1), 11, 6, [1, 2, 3]),
    (Step::ByNumber(0, 1), 11, 6, [6, 2, 0]),
    (Step::ByRegister(2, 12), 12, 5, [0, 0, 5]),
    (Step::Copy(2, 10, 2), 40, 0, [0, 0, 5]),
];

/// `COPY to, from`, with its debug instruction number.
fn copy(alloc: Global, to: u32, from: u32, number: u32) -> Result<ItemKind, Fail> {
    let (to, from) = (register(to)?, register(from)?);
    let mut operands = Operands::new(alloc);
    operands.push(Operand::Def(to))?;
    operands.push(Operand::Use(from))?;
    match Instr::new(Op::Copy, operands) {
        Some(instr) => Ok(ItemKind::Code(instr, Some(DebugNumber(number)))),
        None => Err(Fail::from("no form")),
    }
}

/// The item of a step.
fn kind(alloc: Global, step: &Step) -> Result<ItemKind, Fail> {
    match step {
        Step::Copy(to, from, number) => copy(alloc, *to, *from, *number),
        Step::ByNumber(offset, number) => Ok(ItemKind::Mark(
            part(4, *offset, 4),
            MarkValue::Pair(pair(*number)),
        )),
        Step::ByRegister(offset, n) => Ok(ItemKind::Mark(
            part(4, *offset, 4),
            MarkValue::At(register(*n)?),
        )),
    }
}

/// The classes past an item.
fn pass(held: &mut LocationTracker, block: &Block, kind: &ItemKind) -> Result<(), Fail> {
    if held.places.len() != PLACES || held.parts.len() != block.variables.len() {
        return Err(Fail::from("another number of places or parts"));
    }
    Ok(held.pass(block, kind)?)
}

/// An entry where the first of two things has class 3 on every path, and the second class 5 on some.
fn entry(alloc: Global) -> Result<BlockEntry, Fail> {
    let classes = Numbers::from_slice(alloc, &[3, 5])?;
    let given = Bits::from_slice(alloc, &[true, false])?;
    Ok(BlockEntry {
        reached: true,
        classes,
        given,
    })
}

/// The class of a number there, where these are the two.
fn class_at(
    alloc: Global,
    entry: &BlockEntry,
    index: &TrackedIndex,
    number: u64,
) -> Result<usize, Fail> {
    let settled = settle(alloc, entry, 2)?;
    if settled.as_slice() != [3, 0].as_slice() {
        return Err(Fail::from("other classes are settled"));
    }
    Ok(number_class(index, settled.as_slice(), number))
}

/// The class of a number at an entry where 7 has class 3 on every path, and 9 class 5 on some.
fn class_of(alloc: Global, number: u64) -> Result<usize, Fail> {
    let entry = entry(alloc)?;
    let index = index_of(alloc, &[Tracked::Number(7), Tracked::Number(9)])?;
    class_at(alloc, &entry, &index, number)
}

/// Sets the class of x10 where all places have one.
fn put_in_x10(held: &mut LocationTracker, class: usize) -> Result<(), Fail> {
    if held.places.len() != PLACES {
        return Err(Fail::from("another number of places"));
    }
    held.put(register(10)?, class);
    Ok(())
}

/// All places have class 5, but x10 has 6, and three parts have classes of their own.
fn held(alloc: Global) -> Result<LocationTracker, Fail> {
    let places = vec![in alloc; 5; PLACES]?;
    let parts = vec![in alloc; 1, 2, 3]?;
    let mut held = LocationTracker {
        places,
        pairs: HashMap::new(alloc),
        parts,
        next: 100,
    };
    put_in_x10(&mut held, 6)?;
    Ok(held)
}

/// Whether a place and the parts have these classes.
fn are_classes(held: &LocationTracker, place: usize, class: usize, parts: &[usize]) -> bool {
    held.place(place) == class && held.parts.as_slice() == parts
}

/// The number of the first row behind which classes are others.
fn other_classes(
    alloc: Global,
    held: &mut LocationTracker,
    block: &Block,
    rows: &[Row],
) -> Result<Option<usize>, Fail> {
    for (row, (step, place, class, parts)) in rows.iter().enumerate() {
        let kind = kind(alloc, step)?;
        pass(held, block, &kind)?;
        if !are_classes(held, *place, *class, parts.as_slice()) {
            return Ok(Some(row));
        }
    }
    Ok(None)
}

/// The same in a block without numbers, with these parts.
fn other_classes_of(
    alloc: Global,
    variables: &PartList,
    rows: &[Row],
) -> Result<Option<usize>, Fail> {
    let subs = Substitutions::new(alloc);
    let index = index_of(alloc, &[])?;
    let mut held = held(alloc)?;
    let block = Block {
        index: &index,
        settled: &[],
        variables,
        subs: &subs,
    };
    other_classes(alloc, &mut held, &block, rows)
}

/// The same where the parts are bytes 0 to 3, 4 to 7 and 2 to 5 of variable 4.
fn other_classes_in_block(alloc: Global, rows: &[Row]) -> Result<Option<usize>, Fail> {
    let parts = vec![in alloc; part(4, 0, 4), part(4, 4, 4), part(4, 2, 4)]?;
    let variables = PartList::new(alloc, parts)?;
    other_classes_of(alloc, &variables, rows)
}

#[test]
fn places_have_classes(rt: HostRuntime) -> Result<(), Fail> {
    let alloc = rt.alloc();
    assert!(rt; class_of(alloc, 7)? == 3 && class_of(alloc, 9)? == 0 && class_of(alloc, 8)? == 0);
    assert_eq!(rt; other_classes_in_block(alloc, ROWS)?, None);
    Ok(())
}
