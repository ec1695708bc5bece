//! The last assignments to parts of variables.

ghost use Rattle.std.specs.Prelude.{◌≡◌, ◌≤◌, ◌<◌, ◌*◌, ◌%◌, ◌^◌};
ghost use Rattle.std.specs.Prelude.{ℕ, [], ◌∷◌, List, Option, OnOk, OnErr, IfOk, IsTrue};
ghost use Rattle.mir_func.specs.declared.variable.VarId.{VarId};
ghost use Rattle.mir_func.specs.Parts.{Bytes};
ghost use Rattle.mir_func.specs.Variables.{low_part};
ghost use Rattle.sem_mir.specs.Step.{part_of};
ghost use Rattle.sem_interpreter.specs.Assigned.{Covers, MarksHold, assigned_in, key_of, part_in, parts_of};

use base_list::List;
use indexmap::IndexMap;
use mir_func::variable::{Fragment, VarId, are_same_bytes, do_meet};
use std::alloc::{AllocError, Global};
use std::marker::Model;

/// The assignments to the parts of one variable, the newest first. A part that is within a later one isn't kept.
type Parts = List<(Option<Fragment>, Option<u64>)>;

/// The parts of each variable, by its node and the node that it is inlined at.
#[derive(Drop)]
pub struct Assignments {
    parts: IndexMap<(u32, Option<u32>), Parts>,
}

impl Model for Assignments {
    ghost use Rattle.std.specs.Prelude.{ℕ, List, Option};
    ghost use Rattle.mir_func.specs.Parts.{Bytes};

    ghost Value = { List ((ℕ × Option ℕ) × List (Option Bytes × Option ℕ)) };

    ghost view = { λ a. a.parts.entries };
}

impl Assignments {
    /// No assignments. It takes no memory.
    pub fn new(alloc: Global) -> Assignments
        ensures { result ≡ [] }
    {
        Assignments {
            parts: IndexMap::new(alloc),
        }
    }

    /// The value of a part by its last assignment. `None` if it wasn't assigned yet, if its last assignment was
    /// undef, or if a part that overlaps it was assigned later.
    pub fn last(&self, v: &VarId) -> Option<u64>
        ensures { result ≡ assigned_in v.now self.now }
    {
        match self.parts.get(&key(v)) {
            Some(parts) => last_in(parts.as_slice(), &v.fragment),
            None => None,
        }
    }

    /// Assigns to a part. Other parts that overlap it have no value from then on. If memory runs out nothing
    /// changes.
    pub fn assign(&mut self, v: &VarId, value: Option<u64>) -> Result<(), AllocError>
        ensures ok { OnOk result ((marks : List (VarId × Option ℕ)) → MarksHold self.old marks
            → MarksHold self.new ((v.now, value) ∷ marks)) }
        ensures err { OnErr result (self.new ≡ self.old) }
    {
        let parts = self.next_parts(v, value)?;
        self.parts.insert(key(v), parts)?;
        Ok(())
    }

    /// The parts of a variable after an assignment to one of them.
    fn next_parts(&self, v: &VarId, value: Option<u64>) -> Result<Parts, AllocError>
        ensures { IfOk result (λ made. (b : Option Bytes)
            → part_in b made ≡ part_in b ((v.now.fragment, value) ∷ parts_of v.now self.now)) }
    {
        let alloc = *self.parts.allocator();
        match self.parts.get(&key(v)) {
            Some(parts) => after(alloc, parts.as_slice(), &v.fragment, value),
            None => after(alloc, &[], &v.fragment, value),
        }
    }
}

/// The value of a part: the low bytes of a value.
pub fn part_of(v: &VarId, value: Option<u64>) -> Option<u64>
    ensures { result ≡ part_of v.now value }
{
    match value {
        None => None,
        Some(x) => Some(part_value(v.fragment, x)),
    }
}

fn part_value(part: Option<Fragment>, value: u64) -> u64
    ensures { result ≡ low_part part value }
{
    match part {
        None => value,
        Some(bytes) => low_bytes(value, bytes.length()),
    }
}

/// The low `count` bytes of a number.
fn low_bytes(number: u64, count: u32) -> u64
    requires { count ≤ 8 }
    ensures { result ≡ number % 2 ^ (8 * count) }
{
    if count == 8 {
        number
    } else {
        number % (1 << (8 * count))
    }
}

/// The key of a variable's parts.
fn key(v: &VarId) -> (u32, Option<u32>)
    ensures { result ≡ key_of v.now }
{
    let inlined_at = match v.inlined_at {
        Some(node) => Some(node.number()),
        None => None,
    };
    (v.node.number(), inlined_at)
}

/// The value of a part by its last assignment.
fn last_in(parts: &[(Option<Fragment>, Option<u64>)], part: &Option<Fragment>) -> Option<u64>
    ensures { result ≡ part_in part.now parts.now }
{
    for newest in parts {
        if are_same_bytes(part, &newest.0) {
            return newest.1;
        }
        if do_meet(part, &newest.0) {
            return None;
        }
    }
    None
}

/// The parts after an assignment to one of them.
fn after(
    alloc: Global,
    parts: &[(Option<Fragment>, Option<u64>)],
    part: &Option<Fragment>,
    value: Option<u64>,
) -> Result<Parts, AllocError>
    ensures { IfOk result (λ made. (b : Option Bytes) → part_in b made ≡ part_in b ((part.now, value) ∷ parts.now)) }
{
    let mut made = Parts::new(alloc);
    made.push((*part, value))?;
    for old in parts {
        if !covers(part, &old.0) {
            made.push(*old)?;
        }
    }
    Ok(made)
}

/// Whether a part has all bytes of another.
fn covers(part: &Option<Fragment>, other: &Option<Fragment>) -> bool
    ensures { IsTrue result → Covers part.now other.now }
{
    match part {
        None => true,
        Some(a) => match other {
            None => false,
            Some(b) => { a.offset() <= b.offset() && b.end() <= a.end() }
        },
    }
}
