//! The parts of each variable: fragments, or the whole.

ghost use Rattle.std.specs.Prelude.{◌≡◌, ◌<◌, ◌+◌, ◌++◌, ℕ};
ghost use Rattle.std.specs.Prelude.{List, Option, Some, None, IfOk, OnOk, IsSome, length, slice_get};
ghost use Rattle.std.specs.HashMap.{get};
ghost use Rattle.std.specs.List.Sorted.{IsPermutation, IsNonDecreasingBy};
ghost use Rattle.mir_func.specs.declared.variable.VarId.{VarId};
ghost use Rattle.location_of_variable.specs.declared.group.Group.{Group};
ghost use Rattle.location_of_variable.specs.declared.group.Piece.{Piece};
ghost use Rattle.location_of_variable.specs.Groups.{IsGroupOf, AreGroupsOf};
ghost use Rattle.location_of_variable.specs.steps.Gathering.{
  key_of,
  is_key,
  Numbers,
  NumbersBelow,
  IsEmptyGroup,
  AreGathered,
  whole_with,
  pieces_with,
};

use mir_func::variable::{Fragment, VarId};
use std::alloc::{AllocError, Global};
use std::collections::HashMap;

/// A fragment of a variable, and its index among the parts with debug values.
#[derive(Clone, Copy, Debug)]
pub struct Piece {
    /// The bytes.
    pub bytes: Fragment,
    /// The index of the part.
    pub index: usize,
}

/// The parts of a variable with debug values.
#[derive(Debug, Drop)]
pub struct Group {
    /// The index of the whole variable, if it has debug values.
    pub whole: Option<usize>,
    /// Its fragments, in ascending order of their first byte.
    pub pieces: Vec<Piece>,
}

/// The identity of a variable: its node, and the node that its location is inlined at.
type Key = (u32, Option<u32>);

/// The number of each variable: its index in the list of variables.
type NumberOf = HashMap<Key, usize>;

/// Of the parts with debug values, those of each variable of a list, in the list's order. The error is out of memory.
pub fn groups(alloc: Global, parts: &[VarId], variables: &[VarId]) -> Result<Vec<Group>, AllocError>
    ensures { IfOk result (λ groups. AreGroupsOf parts.now variables.now groups.items) }
{
    let numbers = numbers_of(alloc, variables)?;
    let gathered = gather(alloc, parts, &numbers, variables.len())?;
    let mut groups = Vec::with_capacity(alloc, variables.len())?;
    for variable in variables {
        groups.push(group_of(alloc, &numbers, gathered.as_slice(), variable)?)?;
    }
    Ok(groups)
}

fn key_of(variable: &VarId) -> Key
    ensures { result ≡ key_of variable.now }
{
    let inlined_at = match variable.inlined_at {
        None => None,
        Some(node) => Some(node.number()),
    };
    (variable.node.number(), inlined_at)
}

/// The number of each variable: its index in the list.
fn numbers_of(alloc: Global, variables: &[VarId]) -> Result<NumberOf, AllocError>
    ensures { IfOk result (NumbersBelow (length variables.now) variables.now) }
{
    let mut numbers = HashMap::new(alloc);
    for (k, variable) in variables.iter().enumerate() {
        numbers.insert(key_of(variable), k)?;
    }
    Ok(numbers)
}

/// The number of a part's variable, if it has one.
fn number_of(numbers: &NumberOf, part: &VarId) -> Option<usize>
    ensures { result ≡ get is_key numbers.now (key_of part.now) }
{
    numbers.get(&key_of(part)).copied()
}

/// The parts of each variable, by its number.
fn gather(
    alloc: Global,
    parts: &[VarId],
    numbers: &NumberOf,
    count: usize,
) -> Result<Vec<Group>, AllocError>
    requires { (q : ℕ × Option ℕ) (k : ℕ) → get is_key numbers.now q ≡ Some k → k < count }
    ensures { IfOk result (λ groups. AreGathered parts.now numbers.now (length parts.now) count groups.items) }
{
    let mut groups = no_parts(alloc, count)?;
    for (j, part) in parts.iter().enumerate() {
        gather_part(&mut groups, numbers, j, part)?;
    }
    Ok(groups)
}

/// Empty groups, of this count.
fn no_parts(alloc: Global, count: usize) -> Result<Vec<Group>, AllocError>
    ensures { IfOk result (λ groups. (parts : List VarId) (numbers : Numbers)
        → AreGathered parts numbers 0 count groups.items) }
{
    let mut groups = Vec::with_capacity(alloc, count)?;
    for _ in 0..count {
        groups.push(Group::new(alloc))?;
    }
    Ok(groups)
}

/// Adds a part to the group of its variable.
fn gather_part(
    groups: &mut Vec<Group>,
    numbers: &NumberOf,
    index: usize,
    part: &VarId,
) -> Result<(), AllocError>
    requires { (q : ℕ × Option ℕ) (k : ℕ) → get is_key numbers.now q ≡ Some k
        → k < length groups.old.items }
    ensures count { length groups.new.items ≡ length groups.old.items }
    ensures gathered { OnOk result ((parts : List VarId) (count : ℕ) → slice_get parts index ≡ Some part.now →
        AreGathered parts numbers.now index count groups.old.items →
        AreGathered parts numbers.now (index + 1) count groups.new.items) }
{
    match number_of(numbers, part) {
        None => Ok(()),
        Some(k) => {
            groups[k].add(index, part.fragment)?;
            Ok(())
        }
    }
}

impl Group {
    fn new(alloc: Global) -> Group
        ensures { IsEmptyGroup result }
    {
        Group {
            whole: None,
            pieces: Vec::new(alloc),
        }
    }

    /// Adds a part.
    fn add(&mut self, index: usize, bytes: Option<Fragment>) -> Result<(), AllocError>
        ensures whole { OnOk result (self.new.whole ≡ whole_with bytes index self.old.whole) }
        ensures pieces { OnOk result (self.new.pieces.items ≡ self.old.pieces.items ++ pieces_with bytes index) }
    {
        match bytes {
            None => self.whole = Some(index),
            Some(bytes) => self.pieces.push(Piece { bytes, index })?,
        }
        Ok(())
    }
}

/// The parts of the variable with this number, fragments in ascending order.
fn group_of(
    alloc: Global,
    numbers: &NumberOf,
    groups: &[Group],
    variable: &VarId,
) -> Result<Group, AllocError>
    requires numbered { IsSome (get is_key numbers.now (key_of variable.now)) }
    requires within { (q : ℕ × Option ℕ) (k : ℕ) → get is_key numbers.now q ≡ Some k → k < length groups.now }
    ensures { IfOk result (λ group. (parts variables : List VarId) (count : ℕ) →
        NumbersBelow (length variables) variables numbers.now →
        AreGathered parts numbers.now (length parts) count groups.now → IsGroupOf parts variable.now group) }
{
    match number_of(numbers, variable) {
        None => unreachable!(),
        Some(k) => Ok(groups[k].sorted(alloc)?),
    }
}

impl Group {
    /// The same parts, with the fragments in ascending order.
    fn sorted(&self, alloc: Global) -> Result<Group, AllocError>
        ensures whole { IfOk result (λ group. group.whole ≡ self.now.whole) }
        ensures pieces { IfOk result (λ group. IsPermutation self.now.pieces.items group.pieces.items) }
        ensures ascend { IfOk result (λ group. IsNonDecreasingBy (λ (x : Piece). x.bytes.offset) group.pieces.items) }
    {
        let mut pieces = Vec::from_slice(alloc, self.pieces.as_slice())?;
        pieces.sort_unstable_by_key(|piece| piece.bytes.offset());
        Ok(Group {
            whole: self.whole,
            pieces,
        })
    }
}
