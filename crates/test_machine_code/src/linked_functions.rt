//! The functions of rows.

use crate::linked_rows::{Line, Row, Stored, Word};
use base_ids::function_ids::{BlockId, DebugNumber, ObjectId, OperandIndex, SlotId};
use base_ids::metadata::NodeId;
use base_list::List;
use mir_func::block::{Block, Blocks};
use mir_func::debug_substitution::OperandPair;
use mir_func::func::{Func, SlotIds};
use mir_func::item::{Item, ItemKind, Items};
use mir_func::location::Loc;
use mir_func::object::{Object, Objects};
use mir_func::position::{Origin, Pos};
use mir_func::variable::{MarkValue, VarId};
use rv64_instr::instr::Instr;
use rv64_instr::name::Name;
use rv64_instr::op::Op;
use rv64_instr::operand::{Operand, Operands};
use rv64_instr::reg::physical;
use rv64_instr::symbol::{Half, LinkedAddress, Symbol};
use std::alloc::Global;

/// The node of a row's variable.
pub const VARIABLE: u32 = 4;

/// The variable of a node.
pub fn variable(node: u32) -> VarId {
    VarId {
        node: NodeId(node),
        inlined_at: None,
        fragment: None,
    }
}

/// The position of an item.
pub fn position(block: u32, item: u32) -> Pos {
    Pos {
        block: BlockId(block),
        item,
    }
}

/// A name by its text.
pub fn name(alloc: Global, text: &str) -> Option<Name> {
    Name::from_slice(alloc, text.as_bytes()).ok()
}

/// The global `g`.
pub fn global(alloc: Global) -> Option<Symbol> {
    Some(Symbol::Global(name(alloc, "g")?))
}

fn part(half: Half, symbol: Symbol, addend: i32) -> Operand {
    Operand::Part(half, LinkedAddress { symbol, addend })
}

fn operand(alloc: Global, word: &Word) -> Option<Operand> {
    match word {
        Word::Def(n) => Some(Operand::Def(physical(*n)?)),
        Word::Use(n) => Some(Operand::Use(physical(*n)?)),
        Word::Gives(n) => Some(Operand::ImplicitDef(physical(*n)?)),
        Word::Takes(n) => Some(Operand::ImplicitUse(physical(*n)?)),
        Word::Imm(i) => Some(Operand::Imm(*i)),
        Word::Upper(addend) => Some(part(Half::Upper, global(alloc)?, *addend)),
        Word::Lower(addend) => Some(part(Half::Lower, global(alloc)?, *addend)),
        Word::UpperOfConstant => Some(part(Half::Upper, Symbol::Constant(0), 0)),
        Word::LowerOfConstant => Some(part(Half::Lower, Symbol::Constant(0), 0)),
        Word::Slot(n) => Some(Operand::Slot(SlotId(*n))),
        Word::Object(n) => Some(Operand::Object(ObjectId(*n))),
        Word::Passes(n) => Some(Operand::Outgoing(SlotId(*n))),
        Word::Target(n) => Some(Operand::Block(BlockId(*n))),
        Word::Called(text) => Some(Operand::Symbol(name(alloc, text)?)),
        Word::Mask => Some(Operand::Mask),
    }
}

fn code(alloc: Global, op: Op, words: &[Word], number: Option<DebugNumber>) -> Option<ItemKind> {
    let mut operands = Operands::new(alloc);
    for word in words {
        operands.push(operand(alloc, word)?).ok()?;
    }
    Some(ItemKind::Code(Instr::new(op, operands)?, number))
}

/// A mark of a register's content.
fn mark(node: u32, register: u32) -> Option<ItemKind> {
    let value = MarkValue::At(physical(register)?);
    Some(ItemKind::Mark(variable(node), value))
}

/// A mark of the value of operand 0 of the instruction with number 1.
fn reference() -> ItemKind {
    let pair = OperandPair {
        number: DebugNumber(1),
        operand: OperandIndex(0),
    };
    ItemKind::Mark(variable(VARIABLE), MarkValue::Pair(pair))
}

fn kind(alloc: Global, line: &Line) -> Option<ItemKind> {
    match line {
        Line::Code(op, words) => code(alloc, *op, words, None),
        Line::Numbered(op, words) => code(alloc, *op, words, Some(DebugNumber(1))),
        Line::At(register) => mark(VARIABLE, *register),
        Line::Refers => Some(reference()),
    }
}

/// Appends an item of a block as it is read: it is kept at its own place.
fn push(items: &mut Items, block: u32, kind: ItemKind) -> Option<()> {
    let item = u32::try_from(items.len()).ok()?;
    let origin = Origin::Kept(position(block, item));
    let loc = Loc::Absent;
    items.push(Item { kind, origin, loc }).ok()
}

/// The items of a block. Before the last stands a mark of each watched register, as the variable of its number plus 100.
fn items(alloc: Global, block: u32, lines: &[Line], watched: &[(u32, u64)]) -> Option<Items> {
    let (last, front) = lines.split_last()?;
    let mut items = Items::new(alloc);
    for line in front {
        push(&mut items, block, kind(alloc, line)?)?;
    }
    for (register, _) in watched {
        let kind = mark(register.checked_add(100)?, *register)?;
        push(&mut items, block, kind)?;
    }
    push(&mut items, block, kind(alloc, last)?)?;
    Some(items)
}

/// A block with marks of the watched registers at its end.
fn block(alloc: Global, n: usize, lines: &[Line], watched: &[(u32, u64)]) -> Option<Block> {
    let number = u32::try_from(n).ok()?;
    let items = items(alloc, number, lines, watched)?;
    let source_end = u32::try_from(items.len()).ok()?;
    Some(Block {
        id: BlockId(number),
        items,
        source_end,
    })
}

fn blocks(alloc: Global, rows: &[&[Line]], watched: &[(u32, u64)]) -> Option<Blocks> {
    let mut blocks = Blocks::new(alloc);
    for (n, lines) in rows.iter().enumerate() {
        blocks.push(block(alloc, n, lines, watched)?).ok()?;
    }
    Some(blocks)
}

fn slots(alloc: Global, stack: &[Stored]) -> Option<SlotIds> {
    let mut slots = SlotIds::new(alloc);
    for stored in stack {
        if let Stored::Slot(n) = stored {
            slots.push(SlotId(*n)).ok()?;
        }
    }
    Some(slots)
}

fn fixed(id: u32, size: u32, distance: i32, offset: u64) -> Object {
    Object {
        id: ObjectId(id),
        size,
        align: 8,
        local_offset: None,
        fixed_offset: Some(distance),
        offset,
    }
}

fn objects(alloc: Global, stack: &[Stored]) -> Option<Objects> {
    let mut objects = Objects::new(alloc);
    for stored in stack {
        if let Stored::Fixed(id, size, distance, offset) = stored {
            objects.push(fixed(*id, *size, *distance, *offset)).ok()?;
        }
    }
    Some(objects)
}

/// A row's function, with marks of the watched registers at the end of each block.
pub fn function(alloc: Global, row: &Row, watched: &[(u32, u64)]) -> Option<Func> {
    let slots = slots(alloc, row.stack)?;
    let objects = objects(alloc, row.stack)?;
    let blocks = blocks(alloc, row.blocks, watched)?;
    let name = List::new(alloc);
    Func::new(alloc, name, slots, objects, blocks).ok()
}
