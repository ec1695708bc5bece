//! Whether code that a pass added names a virtual register.

use base_ids::function_ids::BlockId;
use base_list::List;
use mir_func::block::{Block, Blocks};
use mir_func::func::{Func, SlotIds};
use mir_func::item::{Item, ItemKind, Items};
use mir_func::location::Loc;
use mir_func::object::Objects;
use mir_func::position::{Origin, Pos};
use rv64_instr::instr::Instr;
use rv64_instr::op::Op;
use rv64_instr::operand::{Operand, Operands};
use rv64_instr::reg::Reg;
use scan_allocation::added::adds_virtual;
use std::alloc::Global;

/// A row: the number of the register that code sets, whether a pass added the code, and the answer.
struct Row {
    shows: &'static str,
    register: u32,
    added: bool,
    wanted: bool,
}

const ROWS: &[Row] = &[
    Row {
        shows: "added code with a virtual register",
        register: 32,
        added: true,
        wanted: true,
    },
    Row {
        shows: "added code with the greatest physical register",
        register: 31,
        added: true,
        wanted: false,
    },
    Row {
        shows: "code that was read, with a virtual register",
        register: 32,
        added: false,
        wanted: false,
    },
];

fn copy(alloc: Global, register: u32) -> Option<Instr> {
    let mut operands = Operands::new(alloc);
    operands.push(Operand::Def(Reg::new(register)?)).ok()?;
    operands.push(Operand::Use(Reg::new(10)?)).ok()?;
    Instr::new(Op::Copy, operands)
}

fn push(items: &mut Items, instr: Instr, origin: Origin) -> Option<()> {
    let kind = ItemKind::Code(instr, None);
    let loc = Loc::Absent;
    items.push(Item { kind, origin, loc }).ok()
}

/// The items of a row: a copy of x10, and the return.
fn items(alloc: Global, row: &Row) -> Option<Items> {
    let block = BlockId(0);
    let first = Pos { block, item: 0 };
    let second = Pos { block, item: 1 };
    let origin = if row.added {
        Origin::Before(first)
    } else {
        Origin::Kept(first)
    };
    let mut items = Items::new(alloc);
    push(&mut items, copy(alloc, row.register)?, origin)?;
    let back = Instr::new(Op::PseudoRet, Operands::new(alloc))?;
    push(&mut items, back, Origin::Kept(second))?;
    Some(items)
}

/// The block with a row's items.
fn blocks(alloc: Global, row: &Row) -> Option<Blocks> {
    let block = Block {
        id: BlockId(0),
        items: items(alloc, row)?,
        source_end: 2,
    };
    let mut blocks = Blocks::new(alloc);
    blocks.push(block).ok()?;
    Some(blocks)
}

/// A row's function.
fn function(alloc: Global, row: &Row) -> Option<Func> {
    let blocks = blocks(alloc, row)?;
    Func::new(
        alloc,
        List::new(alloc),
        SlotIds::new(alloc),
        Objects::new(alloc),
        blocks,
    )
    .ok()
}

/// Whether the answer is a row's.
fn is_as_shown(alloc: Global, row: &Row) -> bool {
    match function(alloc, row) {
        Some(f) => adds_virtual(&f) == row.wanted,
        None => false,
    }
}

/// What the first row shows that isn't so.
fn other_row(alloc: Global, rows: &[Row]) -> Option<&'static str> {
    for row in rows {
        if !is_as_shown(alloc, row) {
            return Some(row.shows);
        }
    }
    None
}

#[test]
fn added_code_names_what_the_rows_say(rt: HostRuntime) {
    assert_eq!(rt; other_row(rt.alloc(), ROWS), None);
}
