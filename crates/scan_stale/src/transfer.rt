//! The transfer step of stale registers over one item.

ghost use Rattle.std.specs.Prelude.{◌≡◌, ◌≤◌, ◌||◌, ◌&&◌, not, Some, length};
ghost use Rattle.rv64_instr.specs.declared.place.Place.{Place};
ghost use Rattle.rv64_instr.specs.declared.place.Place.TheVariants.{Register};
ghost use Rattle.rv64_instr.specs.Decoded.{Shows};
ghost use Rattle.rv64_instr.specs.DefsAndUses.{sets};
ghost use Rattle.rv64_instr.specs.LocationEffects.{defines_of};
ghost use Rattle.rv64_instr.specs.Row.{Row, row_of};
ghost use Rattle.pass_liveness.specs.Sets.{has, is_place};
ghost use Rattle.scan_choice.specs.Given.{given_by};
ghost use Rattle.scan_stale.specs.Flow.{taken_by, is_unset, stale_past, goes_on};
ghost use Rattle.scan_stale.specs.Written.{registers_of, AreReal};

use crate::places::{GivenPlaces, register_at};
use mir_func::exit::Exit;
use mir_func::item::ItemKind;
use pass_liveness::names::SlotAndBlockNumbers;
use pass_liveness::set::PlaceSet;
use rv64_instr::decoded::Decoded;
use rv64_instr::instr::Instr;
use rv64_instr::place::Place;
use rv64_instr::reg::Reg;
use scan_choice::given::given_to;

/// Which registers code sets.
#[derive(Clone, Copy, Debug, PartialEq, Eq)]
pub enum Written {
    /// None.
    Nothing,
    /// One by an explicit operand; x0 counts.
    One(Reg),
    /// The caller-saved registers: a call.
    CallerSaved,
}

/// The registers that code sets.
fn registers_written(decoded: &Decoded) -> Written
    ensures { (row : Row) → Shows decoded.now row → registers_of result ≡ sets row }
{
    match *decoded {
        Decoded::Fixes(rd, _) => Written::One(rd),
        Decoded::Moves(rd, _) => Written::One(rd),
        Decoded::Sets(rd, _, _, _) => Written::One(rd),
        Decoded::Addresses(rd, _, _) => Written::One(rd),
        Decoded::Loads(rd, _, _, _) => Written::One(rd),
        Decoded::LoadsSlot(rd, _) => Written::One(rd),
        Decoded::Calls(_) => Written::CallerSaved,
        Decoded::StoresSlot(_, _)
        | Decoded::Stores(_, _, _, _)
        | Decoded::Branches(_, _, _, _)
        | Decoded::Jumps(_)
        | Decoded::Returns(_) => Written::Nothing,
    }
}

/// From the registers that are stale before an item to those that are stale after it, where virtual registers get the
/// physical ones of this table. It takes no memory.
pub fn step_down(
    names: &SlotAndBlockNumbers,
    given: &GivenPlaces,
    set: &mut PlaceSet,
    kind: &ItemKind,
)
    requires few { length given.now ≤ 4096 }
    requires real { AreReal (given_by given.now) }
    ensures { (x : Place) → has names.now.slots set.new x
        ≡ stale_past (given_by given.now) kind.now (has names.now.slots set.old) x }
{
    match kind {
        ItemKind::Code(i, _) => step_over(names, given, set, i),
        ItemKind::Mark(_, _) | ItemKind::Phi(_, _) => {}
    }
}

fn step_over(names: &SlotAndBlockNumbers, given: &GivenPlaces, set: &mut PlaceSet, i: &Instr)
    requires few { length given.now ≤ 4096 }
    requires real { AreReal (given_by given.now) }
    ensures { (x : Place) → has names.now.slots set.new x ≡ (taken_by (given_by given.now) (sets (row_of i.now)) x
        || (has names.now.slots set.old x && not (defines_of (row_of i.now) x))) }
{
    names.remove_defined(set, i);
    insert_taken(names, given, &registers_written(&i.decoded()), set);
}

/// Adds the registers whose place these take.
fn insert_taken(
    names: &SlotAndBlockNumbers,
    given: &GivenPlaces,
    written: &Written,
    set: &mut PlaceSet,
)
    ensures { (x : Place) → has names.now.slots set.new x
        ≡ (taken_by (given_by given.now) (registers_of written.now) x || has names.now.slots set.old x) }
{
    match written {
        Written::Nothing => {}
        Written::One(s) => given.insert_sharing(names, *s, set),
        Written::CallerSaved => given.insert_called(names, set),
    }
}

fn insert_if(names: &SlotAndBlockNumbers, more: bool, r: Reg, set: &mut PlaceSet)
    ensures { (x : Place) → has names.now.slots set.new x
        ≡ ((more && is_place x (Some (Register r))) || has names.now.slots set.old x) }
{
    if more {
        names.insert(set, Some(Place::Register(r)));
    }
}

/// The registers that are stale where the function starts: those that get a physical one.
pub fn unset_at_start(names: &SlotAndBlockNumbers, given: &[Option<Reg>]) -> PlaceSet
    requires { length given.now ≤ 4096 }
    ensures { (x : Place) → has names.now.slots result x ≡ is_unset (given_by given.now) x }
{
    let mut set = PlaceSet::new();
    for n in 0..given.len() + 32 {
        let r = register_at(n);
        insert_if(names, given_to(given, r).is_some(), r, &mut set);
    }
    set
}

/// From the registers that are stale after an item with this exit to those that are stale before the next item. It takes
/// no memory.
pub fn go_on(names: &SlotAndBlockNumbers, set: &mut PlaceSet, exit: Exit)
    ensures { (x : Place) → has names.now.slots set.new x ≡ (goes_on exit && has names.now.slots set.old x) }
{
    match exit {
        Exit::Onward | Exit::Perhaps(_) => {}
        Exit::Always(_) => set.clear(),
        Exit::Final => set.clear(),
    }
}
