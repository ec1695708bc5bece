//! The ends of a body's blocks in the linked language.

ghost use Rattle.std.specs.Prelude.{◌≡◌, ◌++◌, true, IfOk, OnOk, Some};
ghost use Rattle.std.specs.List.{slice_get};
ghost use Rattle.std.specs.Option.{option_map};
ghost use Rattle.read_program.specs.Ends.{
  is_code,
  is_gone,
  is_gone_call,
  gone_operands,
  not_returning,
  kind_not_returning,
  last_kind,
  newer,
  last_code,
  last_item,
  cut_behind,
  cut_at,
  ended_items,
  shorter,
  ended_block,
  ended_blocks,
  with_ends,
};

use base_list::List;
use mir_func::block::{Block, Blocks};
use mir_func::item::{Item, ItemKind, Items, copy_items};
use read_body::body::Body;
use read_body::first_use_order::FirstUseOrder;
use read_item::opcode::without_return;
use rv64_instr::form::has_form;
use rv64_instr::instr::Instr;
use rv64_instr::op::Op;
use rv64_instr::operand::{Operand, Operands};
use std::alloc::{AllocError, Global};

fn is_code(kind: &ItemKind) -> bool
    ensures { result ≡ is_code kind.now }
{
    matches!(kind, ItemKind::Code(_, _))
}

/// Whether an opcode is one of a call that doesn't return.
fn is_gone(op: Op) -> bool
    ensures { result ≡ is_gone op }
{
    matches!(op, Op::NoReturnCall | Op::NoReturnCallIndirect)
}

/// Whether an item is a call that doesn't return.
fn is_gone_call(kind: &ItemKind) -> bool
    ensures { result ≡ is_gone_call kind.now }
{
    match kind {
        ItemKind::Code(instr, _) => is_gone(instr.op),
        ItemKind::Mark(_, _) | ItemKind::Phi(_, _) => false,
    }
}

fn push_all(made: &mut Operands, operands: &[Operand]) -> Result<(), AllocError>
    ensures { OnOk result (made.new ≡ made.old ++ operands.now) }
{
    for operand in operands {
        made.push(operand.copy()?)?;
    }
    Ok(())
}

/// The operands of a call by a register that doesn't return: the register is an implicit use.
fn held_operands(alloc: Global, operands: &Operands) -> Result<Operands, AllocError>
    ensures { IfOk result (λ gone. gone ≡ gone_operands Op.PseudoCallIndirect operands.now) }
{
    match operands.as_slice() {
        [Operand::Use(r), rest @ ..] => {
            let mut gone = Operands::new(alloc);
            gone.push(Operand::ImplicitUse(*r))?;
            push_all(&mut gone, rest)?;
            Ok(gone)
        }
        _ => operands.copy(),
    }
}

/// The operands of a call that doesn't return.
fn gone_operands(alloc: Global, op: Op, operands: &Operands) -> Result<Operands, AllocError>
    ensures { IfOk result (λ gone. gone ≡ gone_operands op operands.now) }
{
    match op {
        Op::PseudoCallIndirect => held_operands(alloc, operands),
        _ => operands.copy(),
    }
}

/// An instruction, which doesn't return if it is a call that may not return.
fn not_returning(alloc: Global, instr: &Instr) -> Result<Instr, AllocError>
    ensures { IfOk result (λ gone. gone ≡ not_returning instr.now) }
{
    let op = without_return(instr.op);
    let operands = gone_operands(alloc, instr.op, &instr.operands)?;
    if has_form(op, operands.as_slice()) {
        Ok(Instr {
            op,
            operands,
            volatile: instr.volatile,
        })
    } else {
        instr.copy()
    }
}

/// An item, which doesn't return if it is a call that may not return.
fn kind_not_returning(alloc: Global, kind: &ItemKind) -> Result<ItemKind, AllocError>
    ensures { IfOk result (λ last. last ≡ kind_not_returning kind.now) }
{
    match kind {
        ItemKind::Code(instr, number) => {
            Ok(ItemKind::Code(not_returning(alloc, instr)?, *number))
        }
        ItemKind::Mark(_, _) | ItemKind::Phi(_, _) => kind.copy(),
    }
}

/// The last item of code of a block; `closed` is whether control doesn't leave it.
fn last_kind(alloc: Global, closed: bool, kind: &ItemKind) -> Result<ItemKind, AllocError>
    ensures { IfOk result (λ last. last ≡ last_kind closed kind.now) }
{
    if closed {
        kind_not_returning(alloc, kind)
    } else {
        kind.copy()
    }
}

/// The index of the last item of code.
fn last_code(items: &[Item]) -> Option<usize>
    ensures { result ≡ last_code items.now }
{
    let mut found = None;
    for (index, item) in items.iter().enumerate() {
        found = newer(is_code(&item.kind), index, found);
    }
    found
}

/// The index, if there is code, and else what was found before.
fn newer(code: bool, index: usize, found: Option<usize>) -> Option<usize>
    ensures { result ≡ newer code index found }
{
    if code { Some(index) } else { found }
}

/// The item with an index, if it is a call that doesn't return and that ends its block.
fn last_item(
    alloc: Global,
    items: &[Item],
    index: usize,
    closed: bool,
) -> Result<Option<Item>, AllocError>
    ensures { IfOk result (λ item. item ≡ last_item closed (slice_get items.now index)) }
{
    match items.get(index) {
        Some(item) => gone_item(alloc, item, closed),
        None => Ok(None),
    }
}

/// The item as the last item of code of its block, if it is a call that doesn't return.
fn gone_item(alloc: Global, item: &Item, closed: bool) -> Result<Option<Item>, AllocError>
    ensures { IfOk result (λ gone. gone ≡ last_item closed (Some item.now)) }
{
    if !closed && !is_gone_call(&item.kind) {
        return Ok(None);
    }
    let kind = last_kind(alloc, closed, &item.kind)?;
    if is_gone_call(&kind) {
        Ok(Some(Item {
            kind,
            origin: item.origin,
            loc: item.loc,
        }))
    } else {
        Ok(None)
    }
}

/// Items up to one, which takes the place of the one that is there.
fn cut_behind(alloc: Global, items: &[Item], index: usize, item: Item) -> Result<Items, AllocError>
    ensures { IfOk result (λ left. left ≡ cut_behind items.now index item) }
{
    let mut left = copy_items(alloc, items)?;
    left.items.truncate(index);
    left.push(item)?;
    Ok(left)
}

/// The same, where one takes its place, and else all items.
fn cut_at(
    alloc: Global,
    items: &[Item],
    index: usize,
    item: Option<Item>,
) -> Result<Items, AllocError>
    ensures { IfOk result (λ left. left ≡ cut_at items.now index item) }
{
    match item {
        Some(item) => cut_behind(alloc, items, index, item),
        None => copy_items(alloc, items),
    }
}

/// The items of a block; `closed` is whether control doesn't leave it.
fn ended_items(alloc: Global, items: &[Item], closed: bool) -> Result<Items, AllocError>
    ensures { IfOk result (λ left. left ≡ ended_items closed items.now) }
{
    match last_code(items) {
        Some(index) => {
            let item = last_item(alloc, items, index, closed)?;
            cut_at(alloc, items, index, item)
        }
        None => copy_items(alloc, items),
    }
}

/// The number of items that were read, of which so many are left.
fn shorter(source_end: u32, left: usize) -> u32
    ensures { result ≡ shorter source_end left }
{
    if left < source_end as usize {
        left as u32
    } else {
        source_end
    }
}

/// A block; `closed` is whether control doesn't leave it.
#[tactic(auto, unfolding(crate::specs::Ends::ended_block))]
fn ended_block(alloc: Global, block: &Block, closed: bool) -> Result<Block, AllocError>
    ensures { IfOk result (λ ended. ended ≡ ended_block closed block.now) }
{
    let items = ended_items(alloc, block.items.as_slice(), closed)?;
    let source_end = shorter(block.source_end, items.len());
    Ok(Block {
        id: block.id,
        items,
        source_end,
    })
}

/// The blocks before the last, of which those with these numbers are closed.
fn ended_blocks(
    alloc: Global,
    closed: &FirstUseOrder,
    blocks: &[Block],
) -> Result<Blocks, AllocError>
    ensures { IfOk result (λ ended. ended ≡ ended_blocks closed.now blocks.now) }
{
    let mut ended = List::new(alloc);
    for block in blocks {
        let is_closed = closed.has(u64::from(block.id.number()));
        ended.push(ended_block(alloc, block, is_closed)?)?;
    }
    Ok(ended)
}

/// The last block, if there is one.
fn ended_last(alloc: Global, last: &Option<Block>) -> Result<Option<Block>, AllocError>
    ensures { IfOk result (λ ended. ended ≡ option_map (ended_block true) last.now) }
{
    match last {
        Some(block) => Ok(Some(ended_block(alloc, block, true)?)),
        None => Ok(None),
    }
}

/// Ends a body's blocks as the linked language says: a call at the end of the last block, or of a block that control doesn't
/// leave, doesn't return, and debug items behind a call that doesn't return are passed over.
pub fn end_blocks(alloc: Global, body: &mut Body) -> Result<(), AllocError>
    ensures { OnOk result (body.new ≡ with_ends body.old) }
{
    let before = ended_blocks(alloc, &body.closed, body.before.as_slice())?;
    let last = ended_last(alloc, &body.last)?;
    body.before = before;
    body.last = last;
    Ok(())
}
