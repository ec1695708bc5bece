//! The items of a body, rewritten once it is known which stack entries are stack objects.

ghost use Rattle.std.specs.Prelude.{◌≡◌, ◌+◌, ◌≤◌, IfOk, map};
ghost use Rattle.rv64_instr.specs.Row.{Row};
ghost use Rattle.rv64_instr.specs.Decoded.{Shows};
ghost use Rattle.read_program.specs.Objects.{
  operand_as,
  operands_as,
  instr_as,
  is_object,
  place_as,
  kind_as,
  item_as,
  block_as,
  blocks_as,
  has_bytes,
  row_stays,
  kind_stays,
  block_stays,
  blocks_stay,
};

use base_ids::function_ids::ObjectId;
use base_list::List;
use mir_func::block::{Block, Blocks};
use mir_func::item::{Item, ItemKind, Items};
use mir_func::object::Object;
use read_body::first_use_order::FirstUseOrder;
use rv64_instr::arithmetic::{load_width, store_width};
use rv64_instr::decoded::{Base, Decoded};
use rv64_instr::instr::Instr;
use rv64_instr::operand::{Operand, Operands};
use rv64_instr::place::Place;
use std::alloc::{AllocError, Global};

/// An operand: a spill slot becomes a stack object if its entry is one.
fn operand_as(ids: &FirstUseOrder, operand: &Operand) -> Result<Operand, AllocError>
    ensures { IfOk result (λ o. o ≡ operand_as ids.now operand.now) }
{
    match operand {
        Operand::Slot(n) if ids.has(u64::from(n.number())) => {
            Ok(Operand::Object(ObjectId(n.number())))
        }
        _ => operand.copy(),
    }
}

fn operands_as(
    alloc: Global,
    ids: &FirstUseOrder,
    operands: &[Operand],
) -> Result<Operands, AllocError>
    ensures { IfOk result (λ os. os ≡ operands_as ids.now operands.now) }
{
    let mut renamed = Operands::new(alloc);
    for operand in operands {
        renamed.push(operand_as(ids, operand)?)?;
    }
    Ok(renamed)
}

/// An instruction: its slots become objects, if the opcode takes them so; else it is left as it is.
fn instr_as(alloc: Global, ids: &FirstUseOrder, instr: &Instr) -> Result<Instr, AllocError>
    ensures { IfOk result (λ i. i ≡ instr_as ids.now instr.now) }
{
    let operands = operands_as(alloc, ids, instr.operands.as_slice())?;
    match Instr::new(instr.op, operands) {
        Some(renamed) => Ok(renamed.with_volatile(instr.volatile)),
        None => instr.copy(),
    }
}

/// Whether a location is a slot whose entry is a stack object.
fn is_object(ids: &FirstUseOrder, place: &Place) -> bool
    ensures { result ≡ is_object ids.now place.now }
{
    match place {
        Place::Slot(n) => ids.has(u64::from(n.number())),
        Place::Register(_) | Place::Const(_) => false,
    }
}

/// The location of a DBG_PHI: none if it is a stack object.
fn place_as(ids: &FirstUseOrder, place: Option<Place>) -> Option<Place>
    ensures { result ≡ place_as ids.now place }
{
    match place {
        Some(place) => {
            if is_object(ids, &place) {
                None
            } else {
                Some(place)
            }
        }
        None => None,
    }
}

fn kind_as(alloc: Global, ids: &FirstUseOrder, kind: &ItemKind) -> Result<ItemKind, AllocError>
    ensures { IfOk result (λ k. k ≡ kind_as ids.now kind.now) }
{
    match kind {
        ItemKind::Code(instr, number) => {
            Ok(ItemKind::Code(instr_as(alloc, ids, instr)?, *number))
        }
        ItemKind::Mark(variable, value) => Ok(ItemKind::Mark(*variable, *value)),
        ItemKind::Phi(place, number) => Ok(ItemKind::Phi(place_as(ids, *place), *number)),
    }
}

fn item_as(alloc: Global, ids: &FirstUseOrder, item: &Item) -> Result<Item, AllocError>
    ensures { IfOk result (λ i. i ≡ item_as ids.now item.now) }
{
    Ok(Item {
        kind: kind_as(alloc, ids, &item.kind)?,
        origin: item.origin,
        loc: item.loc,
    })
}

fn items_as(alloc: Global, ids: &FirstUseOrder, items: &[Item]) -> Result<Items, AllocError>
    ensures { IfOk result (λ all. all ≡ map (item_as ids.now) items.now) }
{
    let mut renamed = List::new(alloc);
    for item in items {
        renamed.push(item_as(alloc, ids, item)?)?;
    }
    Ok(renamed)
}

fn block_as(alloc: Global, ids: &FirstUseOrder, block: &Block) -> Result<Block, AllocError>
    ensures { IfOk result (λ b. b ≡ block_as ids.now block.now) }
{
    Ok(Block {
        id: block.id,
        items: items_as(alloc, ids, block.items.as_slice())?,
        source_end: block.source_end,
    })
}

/// The blocks, with these numbers as stack objects.
pub fn blocks_as(alloc: Global, ids: &FirstUseOrder, blocks: &[Block]) -> Result<Blocks, AllocError>
    ensures { IfOk result (λ all. all ≡ blocks_as ids.now blocks.now) }
{
    let mut renamed = List::new(alloc);
    for block in blocks {
        renamed.push(block_as(alloc, ids, block)?)?;
    }
    Ok(renamed)
}

/// Whether there is an object of this number with at least `offset + width` bytes.
fn has_bytes(objects: &[Object], n: ObjectId, offset: u64, width: u64) -> bool
    requires { width ≤ 8 }
    ensures { result ≡ has_bytes objects.now n (offset + width) }
{
    for object in objects {
        if object.id.number() == n.number() {
            let size = u64::from(object.size);
            return width <= size && offset <= size - width;
        }
    }
    false
}

/// Whether an instruction's access is within its object; in the linked language an address may lie outside of it.
fn row_stays(linked: bool, objects: &[Object], decoded: &Decoded) -> bool
    ensures { (row : Row) → Shows decoded.now row → result ≡ row_stays linked objects.now row }
{
    match *decoded {
        Decoded::Addresses(_, n, offset) => has_bytes(
            objects,
            n,
            if linked { 0 } else { offset },
            0,
        ),
        Decoded::Loads(_, op, Base::ObjectAt(n), offset) => {
            has_bytes(objects, n, offset, load_width(op) as u64)
        }
        Decoded::Stores(op, _, Base::ObjectAt(n), offset) => {
            has_bytes(objects, n, offset, store_width(op) as u64)
        }
        _ => true,
    }
}

fn kind_stays(linked: bool, objects: &[Object], kind: &ItemKind) -> bool
    ensures { result ≡ kind_stays linked objects.now kind.now }
{
    match kind {
        ItemKind::Code(instr, _) => row_stays(linked, objects, &instr.decoded()),
        ItemKind::Mark(_, _) | ItemKind::Phi(_, _) => true,
    }
}

fn block_stays(linked: bool, objects: &[Object], block: &Block) -> bool
    ensures { result ≡ block_stays linked objects.now block.now }
{
    block
        .items
        .as_slice()
        .iter()
        .all(|item| kind_stays(linked, objects, &item.kind))
}

/// Whether each access of these blocks is within its object.
pub fn blocks_stay(linked: bool, objects: &[Object], blocks: &[Block]) -> bool
    ensures { result ≡ blocks_stay linked objects.now blocks.now }
{
    blocks
        .iter()
        .all(|block| block_stays(linked, objects, block))
}
