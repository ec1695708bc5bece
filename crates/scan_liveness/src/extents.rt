//! The extents of virtual registers over points of code.

ghost use Rattle.std.specs.Prelude.{◌≡◌, ◌+◌, ◌-◌, ◌<◌, ◌≤◌, ◌||◌, ◌&&◌, not, nat_eq, cond, true, ℕ, None, length, slice_index_or};
ghost use Rattle.std.specs.Prelude.{slice_set};
ghost use Rattle.std.specs.List.{list_any};
ghost use Rattle.rv64_instr.specs.declared.place.Place.TheVariants.{Register};
ghost use Rattle.rv64_instr.specs.LocationEffects.{uses_of, defines_of};
ghost use Rattle.rv64_instr.specs.Row.{row_of};
ghost use Rattle.mir_func.specs.declared.item.ItemKind.TheVariants.{Code};
ghost use Rattle.pass_trait.specs.Causes.{names};
ghost use Rattle.pass_liveness.specs.Sets.{has};
ghost use Rattle.scan_liveness.specs.Described.{is_in, point_of, stepped_at};
ghost use Rattle.scan_liveness.specs.Extents.{from_here, widened, stepped};
ghost use Rattle.scan_liveness.specs.Registers.{register_of};

use crate::registers::register_of;
use pass_liveness::names::SlotAndBlockNumbers;
use pass_liveness::set::PlaceSet;
use rv64_instr::instr::Instr;
use rv64_instr::operand::Operand;
use rv64_instr::place::Place;
use rv64_instr::reg::Reg;
use scan_allocation::spill_rule_crate::named::code_names;

/// From where to where a register is touched, as indices of points from the end of the text.
#[derive(Clone, Copy, Debug, PartialEq, Eq)]
pub struct Extent {
    /// The index of the first point in the text, which is the greatest.
    pub first: usize,
    /// The index of the last one.
    pub last: usize,
}

/// The virtual register with this index among them.
pub(crate) fn virtual_register(k: usize) -> Reg
    requires { k < 4096 }
    ensures { result ≡ k + 32 }
{
    match Reg::new(k as u32 + 32) {
        Some(r) => r,
        None => unreachable!(),
    }
}

/// The extent from a point on.
fn from_here(k: usize, extent: Option<Extent>) -> Option<Extent>
    ensures { result ≡ from_here k extent }
{
    match extent {
        None => Some(Extent { first: k, last: k }),
        Some(e) => Some(Extent {
            first: k,
            last: e.last,
        }),
    }
}

/// Steps the extents over code, before and after which these places are live, and whose index is `at`. The extents of the
/// registers of `pending` were pending. If `quiet`, those are the registers that are live after the code.
pub(crate) fn touch(
    numbers: &SlotAndBlockNumbers,
    pending: &PlaceSet,
    before: &PlaceSet,
    after: &PlaceSet,
    i: &Instr,
    at: usize,
    quiet: bool,
    extents: &mut Vec<Option<Extent>>,
)
    requires few { length extents.old.items ≤ 4096 }
    requires up { (r : ℕ) → is_in numbers.now.slots before.now r ≡ (uses_of i.now (Register r) ||
        (is_in numbers.now.slots after.now r && not (defines_of (row_of i.now) (Register r)))) }
    requires quiet { quiet ≡ true → (r : ℕ) → is_in numbers.now.slots pending.now r ≡ is_in numbers.now.slots after.now r }
    ensures long { length extents.new.items ≡ length extents.old.items }
    ensures each { (k : ℕ) → k < length extents.old.items → slice_index_or extents.new.items k None ≡
        stepped_at (is_in numbers.now.slots pending.now) (point_of numbers.now.slots before.now after.now i.now) at (k + 32)
        (slice_index_or extents.old.items k None) }
{
    let _ = &i.op;
    step_unless(numbers, pending, before, after, i, at, quiet, extents);
    step_named(
        numbers,
        pending,
        before,
        after,
        i,
        at,
        i.operands.as_slice(),
        extents,
    );
}

/// Steps the extents of the registers that are live before or after the code, or were pending, unless it is quiet.
fn step_unless(
    numbers: &SlotAndBlockNumbers,
    pending: &PlaceSet,
    before: &PlaceSet,
    after: &PlaceSet,
    i: &Instr,
    at: usize,
    quiet: bool,
    extents: &mut Vec<Option<Extent>>,
)
    requires { length extents.old.items ≤ 4096 }
    ensures long { length extents.new.items ≡ length extents.old.items }
    ensures each { (k : ℕ) → k < length extents.old.items → slice_index_or extents.new.items k None ≡
        cond (not quiet && (is_in numbers.now.slots pending.now (k + 32) || (is_in numbers.now.slots before.now (k + 32) ||
        is_in numbers.now.slots after.now (k + 32))))
        (stepped_at (is_in numbers.now.slots pending.now) (point_of numbers.now.slots before.now after.now i.now) at (k + 32)
        (slice_index_or extents.old.items k None)) (slice_index_or extents.old.items k None) }
{
    if quiet {
        return;
    }
    step_live(numbers, pending, before, after, i, at, extents);
}

fn step_live(
    numbers: &SlotAndBlockNumbers,
    pending: &PlaceSet,
    before: &PlaceSet,
    after: &PlaceSet,
    i: &Instr,
    at: usize,
    extents: &mut Vec<Option<Extent>>,
)
    requires { length extents.old.items ≤ 4096 }
    ensures long { length extents.new.items ≡ length extents.old.items }
    ensures each { (k : ℕ) → k < length extents.old.items → slice_index_or extents.new.items k None ≡
        cond (is_in numbers.now.slots pending.now (k + 32) || (is_in numbers.now.slots before.now (k + 32) ||
        is_in numbers.now.slots after.now (k + 32)))
        (stepped_at (is_in numbers.now.slots pending.now) (point_of numbers.now.slots before.now after.now i.now) at (k + 32)
        (slice_index_or extents.old.items k None)) (slice_index_or extents.old.items k None) }
{
    for k in 0..extents.len() {
        step_near(numbers, pending, before, after, i, at, k, extents);
    }
}

/// Steps the extent of the virtual register of this index, if it is in one of the sets.
fn step_near(
    numbers: &SlotAndBlockNumbers,
    pending: &PlaceSet,
    before: &PlaceSet,
    after: &PlaceSet,
    i: &Instr,
    at: usize,
    k: usize,
    extents: &mut Vec<Option<Extent>>,
)
    requires few { length extents.old.items ≤ 4096 }
    requires inside { k < length extents.old.items }
    ensures { extents.new.items ≡ slice_set extents.old.items k
        (cond (is_in numbers.now.slots pending.now (k + 32) || (is_in numbers.now.slots before.now (k + 32) ||
        is_in numbers.now.slots after.now (k + 32)))
        (stepped_at (is_in numbers.now.slots pending.now) (point_of numbers.now.slots before.now after.now i.now) at (k + 32)
        (slice_index_or extents.old.items k None)) (slice_index_or extents.old.items k None)) }
{
    if is_near(numbers, pending, before, after, virtual_register(k)) {
        step(numbers, pending, before, after, i, at, k, extents);
    }
}

/// Whether the register is in one of these sets.
fn is_near(
    numbers: &SlotAndBlockNumbers,
    pending: &PlaceSet,
    before: &PlaceSet,
    after: &PlaceSet,
    r: Reg,
) -> bool
    ensures { result ≡ (is_in numbers.now.slots pending.now r || (is_in numbers.now.slots before.now r ||
        is_in numbers.now.slots after.now r)) }
{
    numbers.has(pending, Place::Register(r))
        || (numbers.has(before, Place::Register(r)) || numbers.has(after, Place::Register(r)))
}

/// Steps the extents of the registers of operands.
fn step_named(
    numbers: &SlotAndBlockNumbers,
    pending: &PlaceSet,
    before: &PlaceSet,
    after: &PlaceSet,
    i: &Instr,
    at: usize,
    operands: &[Operand],
    extents: &mut Vec<Option<Extent>>,
)
    requires { length extents.old.items ≤ 4096 }
    ensures long { length extents.new.items ≡ length extents.old.items }
    ensures each { (k : ℕ) → k < length extents.old.items → slice_index_or extents.new.items k None ≡
        cond (list_any (λ o. nat_eq (register_of o) (k + 32)) operands.now)
        (stepped_at (is_in numbers.now.slots pending.now) (point_of numbers.now.slots before.now after.now i.now) at (k + 32)
        (slice_index_or extents.old.items k None)) (slice_index_or extents.old.items k None) }
{
    for operand in operands {
        step_operand(numbers, pending, before, after, i, at, operand, extents);
    }
}

/// Steps the extent of an operand's register, if it is virtual.
fn step_operand(
    numbers: &SlotAndBlockNumbers,
    pending: &PlaceSet,
    before: &PlaceSet,
    after: &PlaceSet,
    i: &Instr,
    at: usize,
    operand: &Operand,
    extents: &mut Vec<Option<Extent>>,
)
    requires { length extents.old.items ≤ 4096 }
    ensures long { length extents.new.items ≡ length extents.old.items }
    ensures each { (k : ℕ) → k < length extents.old.items → slice_index_or extents.new.items k None ≡
        cond (nat_eq (register_of operand.now) (k + 32))
        (stepped_at (is_in numbers.now.slots pending.now) (point_of numbers.now.slots before.now after.now i.now) at (k + 32)
        (slice_index_or extents.old.items k None)) (slice_index_or extents.old.items k None) }
{
    let r = register_of(operand) as usize;
    if r < 32 {
        return;
    }
    let k = r - 32;
    if k < extents.len() {
        step(numbers, pending, before, after, i, at, k, extents);
    }
}

/// Steps the extent of the virtual register of this index.
fn step(
    numbers: &SlotAndBlockNumbers,
    pending: &PlaceSet,
    before: &PlaceSet,
    after: &PlaceSet,
    i: &Instr,
    at: usize,
    k: usize,
    extents: &mut Vec<Option<Extent>>,
)
    requires few { length extents.old.items ≤ 4096 }
    requires inside { k < length extents.old.items }
    ensures { extents.new.items ≡ slice_set extents.old.items k
        (stepped_at (is_in numbers.now.slots pending.now) (point_of numbers.now.slots before.now after.now i.now) at (k + 32)
        (slice_index_or extents.old.items k None)) }
{
    let r = virtual_register(k);
    let was_pending = numbers.has(pending, Place::Register(r));
    let is_pending = numbers.has(before, Place::Register(r));
    let touched = touches(numbers, before, after, i, r);
    let was = extents[k];
    extents[k] = stepped(was_pending, is_pending, touched, at, was);
}

/// The extent after a point that touches its register, or not.
fn stepped(
    was_pending: bool,
    is_pending: bool,
    touched: bool,
    at: usize,
    extent: Option<Extent>,
) -> Option<Extent>
    ensures { result ≡ stepped was_pending is_pending touched at extent }
{
    if !was_pending {
        widened(touched, at, extent)
    } else if is_pending {
        extent
    } else if touched {
        from_here(at, extent)
    } else {
        from_here(at.saturating_sub(1), extent)
    }
}

/// Widens the extents that are pending up to the first of so many points.
pub(crate) fn close(
    numbers: &SlotAndBlockNumbers,
    pending: &PlaceSet,
    count: usize,
    extents: &mut Vec<Option<Extent>>,
)
    requires { length extents.old.items ≤ 4096 }
    ensures long { length extents.new.items ≡ length extents.old.items }
    ensures wide { (k : ℕ) → k < length extents.old.items → slice_index_or extents.new.items k None ≡
        widened (is_in numbers.now.slots pending.now (k + 32)) (count - 1) (slice_index_or extents.old.items k None) }
{
    let last = count.saturating_sub(1);
    for k in 0..extents.len() {
        let is_pending = numbers.has(pending, Place::Register(virtual_register(k)));
        widen(extents, k, is_pending, last);
    }
}

/// Widens the extent at an index up to a point, if that touches its register.
fn widen(extents: &mut Vec<Option<Extent>>, k: usize, touched: bool, at: usize)
    requires { k < length extents.old.items }
    ensures { extents.new.items ≡
        slice_set extents.old.items k (widened touched at (slice_index_or extents.old.items k None)) }
{
    let was = extents[k];
    extents[k] = widened(touched, at, was);
}

fn widened(touched: bool, at: usize, extent: Option<Extent>) -> Option<Extent>
    ensures { result ≡ widened touched at extent }
{
    if touched {
        from_here(at, extent)
    } else {
        extent
    }
}

/// Whether code touches the register: names it, or it is live before or after it.
fn touches(
    numbers: &SlotAndBlockNumbers,
    before: &PlaceSet,
    after: &PlaceSet,
    i: &Instr,
    r: Reg,
) -> bool
    ensures { result ≡ (names r (Code i.now None) ||
        (has numbers.now.slots before.now (Register r) || has numbers.now.slots after.now (Register r))) }
{
    code_names(r, i)
        || (numbers.has(before, Place::Register(r)) || numbers.has(after, Place::Register(r)))
}
