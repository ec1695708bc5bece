//! What is lost where debug values and DBG_PHIs become undef.

ghost use Rattle.std.specs.Prelude.{◌≡◌, ◌++◌, ◌∷◌, [], cond, OnOk};
ghost use Rattle.pass_liveness.specs.Sets.{has};
ghost use Rattle.scan_allot.specs.Losses.{wrong_place, lost_value, lost_place, lost_kind};
ghost use Rattle.scan_allot.specs.Silent.{is_silent};

use crate::named::NamedFunction;
use crate::silence::is_silent;
use base_ids::function_ids::DebugNumber;
use mir_func::item::{Item, ItemKind};
use mir_func::position::{Origin, position_of};
use mir_func::variable::MarkValue;
use pass_liveness::set::PlaceSet;
use pass_trait::loss::{Loss, Lost, Reason};
use rv64_instr::place::Place;
use rv64_instr::reg::Reg;
use scan_stale::stale::StaleRegisters;
use std::alloc::AllocError;

/// Adds what is lost of an item where these registers are stale. The error is out of memory.
pub fn push_lost(
    f: &NamedFunction,
    stale: &StaleRegisters,
    set: &PlaceSet,
    item: &Item,
    lost: &mut Vec<Loss>,
) -> Result<(), AllocError>
    ensures { OnOk result (lost.new.items ≡ lost.old.items ++
        lost_kind (is_silent f.now (has stale.now.slots set.now)) item.now.kind item.now.origin) }
{
    match &item.kind {
        ItemKind::Code(_, _) => Ok(()),
        ItemKind::Mark(_, value) => push_value(f, stale, set, value, item.origin, lost),
        ItemKind::Phi(place, number) => push_place(f, stale, set, place, *number, lost),
    }
}

fn push_value(
    f: &NamedFunction,
    stale: &StaleRegisters,
    set: &PlaceSet,
    value: &MarkValue,
    origin: Origin,
    lost: &mut Vec<Loss>,
) -> Result<(), AllocError>
    ensures { OnOk result (lost.new.items ≡ lost.old.items ++
        lost_value (is_silent f.now (has stale.now.slots set.now)) origin value.now) }
{
    match value {
        MarkValue::At(r) => push_if(f, stale, set, *r, Lost::Mark(position_of(origin)), lost),
        MarkValue::Nothing | MarkValue::Constant(_) | MarkValue::Pair(_) => Ok(()),
    }
}

fn push_place(
    f: &NamedFunction,
    stale: &StaleRegisters,
    set: &PlaceSet,
    place: &Option<Place>,
    number: DebugNumber,
    lost: &mut Vec<Loss>,
) -> Result<(), AllocError>
    ensures { OnOk result (lost.new.items ≡ lost.old.items ++
        lost_place (is_silent f.now (has stale.now.slots set.now)) number place.now) }
{
    match place {
        Some(Place::Register(r)) => push_if(f, stale, set, *r, Lost::Number(number), lost),
        Some(Place::Slot(_)) | Some(Place::Const(_)) | None => Ok(()),
    }
}

/// Adds the loss, if a debug value or DBG_PHI of the register becomes undef.
fn push_if(
    f: &NamedFunction,
    stale: &StaleRegisters,
    set: &PlaceSet,
    r: Reg,
    what: Lost,
    lost: &mut Vec<Loss>,
) -> Result<(), AllocError>
    ensures { OnOk result (lost.new.items ≡ lost.old.items ++
        cond (is_silent f.now (has stale.now.slots set.now) r) (wrong_place what ∷ []) []) }
{
    if !is_silent(f, stale, set, r) {
        return Ok(());
    }
    lost.push(Loss {
        what,
        reason: Reason::WrongPlace,
    })?;
    Ok(())
}
