//! Items in which virtual registers are replaced.

ghost use Rattle.std.specs.Prelude.{◌≡◌, ◌≤◌, ◌++◌, IfOk, OnOk, length};
ghost use Rattle.pass_liveness.specs.Sets.{has};
ghost use Rattle.scan_stale.specs.scan_choice.Given.{given_by};
ghost use Rattle.scan_debug.specs.scan_rule.Rewrite.{value_now, place_now, kind_now, items_now};
ghost use Rattle.scan_stale.specs.Written.{AreReal};
ghost use Rattle.scan_allot.specs.Losses.{lost_items};
ghost use Rattle.scan_allot.specs.Silent.{is_silent, silent_along};

use crate::code::renamed_code;
use crate::lost::push_lost;
use crate::named::NamedFunction;
use crate::silence::is_silent;
use base_ids::function_ids::BlockId;
use mir_func::item::{Item, ItemKind, Items};
use mir_func::variable::MarkValue;
use pass_liveness::set::PlaceSet;
use pass_trait::loss::Loss;
use rv64_instr::place::Place;
use rv64_instr::reg::Reg;
use scan_stale::places::GivenPlaces;
use scan_stale::scan_choice_crate::given::now;
use scan_stale::stale::StaleRegisters;
use std::alloc::{AllocError, Global};

/// Goes over the items of a block, at whose start these registers are stale, and adds what is lost. The error is out of
/// memory.
pub fn items_now(
    alloc: Global,
    f: &NamedFunction,
    given: &GivenPlaces,
    stale: &StaleRegisters,
    set: &mut PlaceSet,
    _block: BlockId,
    items: &[Item],
    lost: &mut Vec<Loss>,
) -> Result<Items, AllocError>
    requires few { length given.now ≤ 4096 }
    requires real { AreReal (given_by given.now) }
    ensures items { IfOk result (λ made. made ≡ items_now (given_by given.now)
        (silent_along f.now (given_by given.now) items.now (has stale.now.slots set.old)) _block 0 items.now) }
    ensures lost { OnOk result (lost.new.items ≡ lost.old.items ++ lost_items
        (silent_along f.now (given_by given.now) items.now (has stale.now.slots set.old)) _block 0 items.now) }
{
    let mut made = Items::new(alloc);
    for at in 0..items.len() {
        let item = &items[at];
        made.push(item_now(alloc, f, given.as_slice(), stale, set, item)?)?;
        push_lost(f, stale, set, item, lost)?;
        stale.step_down(given, set, &item.kind);
    }
    Ok(made)
}

fn item_now(
    alloc: Global,
    f: &NamedFunction,
    given: &[Option<Reg>],
    stale: &StaleRegisters,
    set: &PlaceSet,
    item: &Item,
) -> Result<Item, AllocError>
    ensures { IfOk result (λ made. made ≡ record {
      kind = kind_now (given_by given.now) (is_silent f.now (has stale.now.slots set.now)) item.now.kind;
      origin = item.now.origin;
      loc = item.now.loc;
    }) }
{
    Ok(Item {
        kind: kind_now(alloc, f, given, stale, set, &item.kind)?,
        origin: item.origin,
        loc: item.loc,
    })
}

fn kind_now(
    alloc: Global,
    f: &NamedFunction,
    given: &[Option<Reg>],
    stale: &StaleRegisters,
    set: &PlaceSet,
    kind: &ItemKind,
) -> Result<ItemKind, AllocError>
    ensures { IfOk result (λ made.
        made ≡ kind_now (given_by given.now) (is_silent f.now (has stale.now.slots set.now)) kind.now) }
{
    match kind {
        ItemKind::Code(i, number) => Ok(ItemKind::Code(renamed_code(alloc, given, i)?, *number)),
        ItemKind::Mark(v, value) => Ok(ItemKind::Mark(*v, value_now(f, given, stale, set, value))),
        ItemKind::Phi(place, number) => {
            Ok(ItemKind::Phi(place_now(f, given, stale, set, place), *number))
        }
    }
}

fn value_now(
    f: &NamedFunction,
    given: &[Option<Reg>],
    stale: &StaleRegisters,
    set: &PlaceSet,
    value: &MarkValue,
) -> MarkValue
    ensures { result ≡ value_now (given_by given.now) (is_silent f.now (has stale.now.slots set.now)) value.now }
{
    match value {
        MarkValue::At(r) => if is_silent(f, stale, set, *r) {
            MarkValue::Nothing
        } else {
            MarkValue::At(now(given, *r))
        },
        MarkValue::Nothing | MarkValue::Constant(_) | MarkValue::Pair(_) => *value,
    }
}

fn place_now(
    f: &NamedFunction,
    given: &[Option<Reg>],
    stale: &StaleRegisters,
    set: &PlaceSet,
    place: &Option<Place>,
) -> Option<Place>
    ensures { result ≡ place_now (given_by given.now) (is_silent f.now (has stale.now.slots set.now)) place.now }
{
    match place {
        Some(Place::Register(r)) => if is_silent(f, stale, set, *r) {
            None
        } else {
            Some(Place::Register(now(given, *r)))
        },
        Some(Place::Slot(n)) => Some(Place::Slot(*n)),
        Some(Place::Const(c)) => Some(Place::Const(*c)),
        None => None,
    }
}
