//! How far above x2 the addresses of stack objects lie that code forms.

ghost use Rattle.std.specs.Prelude.{◌≡◌, ◌≤◌, ◌+◌, ◌^◌, All, nat_lt, cond};
ghost use Rattle.rv64_instr.specs.Row.{Row};
ghost use Rattle.rv64_instr.specs.Decoded.{Shows};
ghost use Rattle.rv64_instr.specs.View.{access_of};
ghost use Rattle.mir_func.specs.Objects.{offset_of};
ghost use Rattle.frame_rule.specs.Rule.{access_end, kind_end, items_end, blocks_end};

use base_ids::function_ids::ObjectId;
use mir_func::block::Block;
use mir_func::item::{Item, ItemKind};
use mir_func::object::Object;
use rv64_instr::decoded::Decoded;

/// The offset of the object with a number from the lowest byte of the area, or 0 without one.
fn offset_of(objects: &[Object], n: ObjectId) -> u64
    requires { All (λ o. o.offset ≤ 2 ^ 40) objects.now }
    ensures value { result ≡ offset_of objects.now n }
    ensures low { result ≤ 2 ^ 40 }
{
    for object in objects {
        if object.id.number() == n.number() {
            return object.offset;
        }
    }
    0
}

/// How far above x2 the address lies that is `added`, modulo 2^64, behind a place; 0 for one below the place.
fn end_of(place: u64, added: u64) -> u64
    requires { place ≤ 2 ^ 41 }
    ensures { result ≡ cond (nat_lt added (2 ^ 63)) (place + added) 0 }
{
    if added < 1 << 63 { place + added } else { 0 }
}

/// The same of an access, where the objects lie above `own` bytes.
fn access_end(own: u64, objects: &[Object], decoded: &Decoded) -> u64
    requires own { own ≤ 2 ^ 40 }
    requires low { All (λ o. o.offset ≤ 2 ^ 40) objects.now }
    ensures { (row : Row) → Shows decoded.now row → result ≡ access_end own objects.now (access_of row) }
{
    match *decoded {
        Decoded::Addresses(_, n, offset) => end_of(own + offset_of(objects, n), offset),
        _ => 0,
    }
}

fn kind_end(own: u64, objects: &[Object], kind: &ItemKind) -> u64
    requires own { own ≤ 2 ^ 40 }
    requires low { All (λ o. o.offset ≤ 2 ^ 40) objects.now }
    ensures { result ≡ kind_end own objects.now kind.now }
{
    match kind {
        ItemKind::Code(i, _) => access_end(own, objects, &i.decoded()),
        ItemKind::Mark(_, _) | ItemKind::Phi(_, _) => 0,
    }
}

/// The greatest of items, or `end`.
fn items_end(own: u64, objects: &[Object], end: u64, items: &[Item]) -> u64
    requires own { own ≤ 2 ^ 40 }
    requires low { All (λ o. o.offset ≤ 2 ^ 40) objects.now }
    ensures { result ≡ items_end own objects.now end items.now }
{
    let mut greatest = end;
    for item in items {
        greatest = greatest.max(kind_end(own, objects, &item.kind));
    }
    greatest
}

/// The greatest of blocks, or `end`.
pub fn blocks_end(own: u64, objects: &[Object], end: u64, blocks: &[Block]) -> u64
    requires own { own ≤ 2 ^ 40 }
    requires low { All (λ o. o.offset ≤ 2 ^ 40) objects.now }
    ensures { result ≡ blocks_end own objects.now end blocks.now }
{
    let mut greatest = end;
    for block in blocks {
        greatest = items_end(own, objects, greatest, block.items.as_slice());
    }
    greatest
}
