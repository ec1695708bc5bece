//! The registers that share a place, where virtual registers are replaced by physical ones.

ghost use Rattle.std.specs.Prelude.{◌≡◌, ◌+◌, ◌≤◌, ◌<◌, ◌||◌, ◌&&◌, not, nat_eq, ℕ, List, [], ◌∷◌, Some, length, slice_index_or, IfOk};
ghost use Rattle.std.specs.List.{list_any};
ghost use Rattle.rv64_instr.specs.declared.place.Place.{Place};
ghost use Rattle.rv64_instr.specs.declared.place.Place.TheVariants.{Register};
ghost use Rattle.rv64_instr.specs.DefsAndUses.{caller_saved};
ghost use Rattle.pass_liveness.specs.Sets.{has, is_place};
ghost use Rattle.scan_choice.specs.scan_allocation.Coloring.{now};
ghost use Rattle.scan_choice.specs.Given.{given_by};
ghost use Rattle.scan_stale.specs.Flow.{taken_by};
ghost use Rattle.scan_stale.specs.Shared.{is_sharing};
ghost use Rattle.scan_stale.specs.Written.{AreReal};

use base_list::List;
use pass_liveness::names::SlotAndBlockNumbers;
use pass_liveness::set::PlaceSet;
use rv64_instr::effects::CALLER_SAVED;
use rv64_instr::place::Place;
use rv64_instr::reg::Reg;
use scan_choice::given::now;
use std::alloc::{AllocError, Global};
use std::marker::Model;

/// The bit of x0 in a set of places.
const REGISTERS: usize = 256;

/// The physical registers that virtual registers get, with the registers that share each of them.
#[derive(Drop)]
pub struct GivenPlaces {
    given: List<Option<Reg>>,
    shared: Vec<PlaceSet>,
    calls: PlaceSet,
}

impl Model for GivenPlaces {
    ghost use Rattle.std.specs.Prelude.{List, ℕ, Option};
    ghost use Rattle.scan_stale.specs.Shared.{AreShared};

    ghost Value = { List (Option ℕ) };

    ghost view = { λ g. g.given };

    ghost invariant = { λ g. AreShared g.given g.shared.items g.calls };
}

impl GivenPlaces {
    /// The places of a table of the physical registers that virtual registers get. The error is out of memory.
    pub fn new(alloc: Global, given: &[Option<Reg>]) -> Result<GivenPlaces, AllocError>
        requires few { length given.now ≤ 4096 }
        requires real { AreReal (given_by given.now) }
        ensures { IfOk result (λ places. places ≡ given.now) }
    {
        let table = List::from_slice(alloc, given)?;
        let shared = all_sharing(alloc, table.as_slice())?;
        let calls = taken_by_calls(table.as_slice());
        Ok(GivenPlaces {
            given: table,
            shared,
            calls,
        })
    }

    /// The table.
    pub fn as_slice(&self) -> &[Option<Reg>]
        ensures { result.now ≡ self.now }
    {
        self.given.as_slice()
    }

    /// Adds the registers whose place a register takes. It takes no memory.
    pub(crate) fn insert_sharing(&self, names: &SlotAndBlockNumbers, s: Reg, set: &mut PlaceSet)
        ensures { (x : Place) → has names.now.slots set.new x
            ≡ (taken_by (given_by self.now) (s ∷ []) x || has names.now.slots set.old x) }
    {
        let place = now(self.given.as_slice(), s);
        let q = place.number() as usize;
        if q < self.shared.len() {
            unite_others(names, &self.shared[q], s, set);
        }
    }

    /// Adds the registers whose place a call takes. It takes no memory.
    pub(crate) fn insert_called(&self, _names: &SlotAndBlockNumbers, set: &mut PlaceSet)
        ensures { (x : Place) → has _names.now.slots set.new x
            ≡ (taken_by (given_by self.now) caller_saved x || has _names.now.slots set.old x) }
    {
        let _ = set.unite(&self.calls);
    }
}

/// Adds the members of another set but this register.
fn unite_others(names: &SlotAndBlockNumbers, others: &PlaceSet, s: Reg, set: &mut PlaceSet)
    ensures { (x : Place) → has names.now.slots set.new x ≡ ((has names.now.slots others.now x &&
        not (is_place x (Some (Register s)))) || has names.now.slots set.old x) }
{
    let was = names.has(set, Place::Register(s));
    let _ = set.unite(others);
    if was {
        return;
    }
    names.remove(set, Some(Place::Register(s)));
}

/// For each physical register the set of the registers that share it.
fn all_sharing(alloc: Global, given: &[Option<Reg>]) -> Result<Vec<PlaceSet>, AllocError>
    requires { length given.now ≤ 4096 }
    ensures long { IfOk result (λ shared. length shared.items ≡ 32) }
    ensures each { IfOk result (λ shared. (q : ℕ) → q < 32 → (slots : List ℕ) (x : Place) → length slots ≤ 256 →
        has slots (slice_index_or shared.items q []) x ≡ is_sharing (given_by given.now) q x) }
{
    let mut shared = Vec::with_capacity(alloc, 32)?;
    for q in 0..32u32 {
        shared.push(sharing(given, q))?;
    }
    Ok(shared)
}

/// The registers whose value is in the physical register of this number.
fn sharing(given: &[Option<Reg>], q: u32) -> PlaceSet
    requires few { length given.now ≤ 4096 }
    requires physical { q < 32 }
    ensures { (slots : List ℕ) (x : Place) → length slots ≤ 256 → has slots result x ≡ is_sharing (given_by given.now) q x }
{
    let mut set = PlaceSet::new();
    for n in 0..given.len() + 32 {
        let r = register_at(n);
        put_if(shares(given, q, r), r, &mut set);
    }
    set
}

/// Whether the value of a register is in the physical register of this number.
fn shares(given: &[Option<Reg>], q: u32, r: Reg) -> bool
    ensures { result ≡ nat_eq q (now (given_by given.now) r) }
{
    q == now(given, r).number()
}

/// The registers whose place a call takes.
fn taken_by_calls(given: &[Option<Reg>]) -> PlaceSet
    requires few { length given.now ≤ 4096 }
    requires real { AreReal (given_by given.now) }
    ensures { (slots : List ℕ) (x : Place) → length slots ≤ 256 → has slots result x ≡ taken_by (given_by given.now) caller_saved x }
{
    let mut set = PlaceSet::new();
    for n in 0..given.len() + 32 {
        let r = register_at(n);
        put_if(takes_saved(given, r), r, &mut set);
    }
    set
}

/// The register of a number.
pub(crate) fn register_at(n: usize) -> Reg
    requires { n < 4128 }
    ensures { result ≡ n }
{
    match Reg::new(n as u32) {
        Some(r) => r,
        None => unreachable!(),
    }
}

fn put_if(more: bool, r: Reg, set: &mut PlaceSet)
    ensures { (slots : List ℕ) (x : Place) → length slots ≤ 256 → has slots set.new x
        ≡ ((more && is_place x (Some (Register r))) || has slots set.old x) }
{
    if more {
        set.insert(REGISTERS + r.number() as usize);
    }
}

/// Whether a register that a call sets takes the place of this one, which the call doesn't set.
fn takes_saved(given: &[Option<Reg>], r: Reg) -> bool
    ensures { result ≡ (list_any (nat_eq (now (given_by given.now) r)) caller_saved &&
        not (list_any (nat_eq r) caller_saved)) }
{
    is_saved(now(given, r)) && !is_saved(r)
}

/// Whether a call sets the register.
fn is_saved(r: Reg) -> bool
    ensures { result ≡ list_any (nat_eq r) caller_saved }
{
    has_number(&CALLER_SAVED, r.number())
}

fn has_number(numbers: &[u32], n: u32) -> bool
    ensures { result ≡ list_any (nat_eq n) numbers.now }
{
    numbers.iter().any(|m| n == *m)
}
