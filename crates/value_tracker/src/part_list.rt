//! Lists of parts of variables in which the parts of one variable are found without a look at the others.

ghost use Rattle.std.specs.Prelude.{◌≡◌, ◌+◌, ◌<◌, ◌++◌, ◌∷◌, [], List, Some, IfOk, OnOk, IsTrue, ◌↔◌, length, slice_get, slice_index};
ghost use Rattle.std.specs.HashMap.{get};
ghost use Rattle.mir_func.specs.declared.variable.VarId.{VarId};
ghost use Rattle.value_tracker.specs.Chains.{key_of, is_key, or_zero, EndAt, AreChained};

use mir_func::variable::VarId;
use std::alloc::{AllocError, Global};
use std::collections::HashMap;
use std::marker::Model;

/// The identity of a variable: its node, and the node that its location is inlined at.
type Key = (u32, Option<u32>);

/// A list of parts of variables. The parts of one variable are chained, from the last one up. A contract sees it as the
/// list.
#[derive(Drop)]
pub struct PartList {
    list: Vec<VarId>,
    /// The end of each variable's parts: 1 more than the index of the last one.
    ends: HashMap<Key, usize>,
    /// For each part the end of its variable's parts before it, or 0.
    before: Vec<usize>,
}

impl Model for PartList {
    ghost use Rattle.std.specs.Prelude.{List, length};
    ghost use Rattle.mir_func.specs.declared.variable.VarId.{VarId};

    ghost Value = { List VarId };

    ghost use Rattle.value_tracker.specs.Chains.{AreChained};

    ghost view = { λ p. p.list.items };

    ghost invariant = { λ p. AreChained p.list.items (length p.list.items) p.ends p.before.items };
}

impl PartList {
    /// The same list, with its parts chained. The error is out of memory.
    pub fn new(alloc: Global, list: Vec<VarId>) -> Result<PartList, AllocError>
        ensures { IfOk result (λ p. p ≡ list.items) }
    {
        let Chains { ends, before } = chains_of(alloc, list.as_slice())?;
        Ok(PartList { list, ends, before })
    }

    /// The parts, in their order.
    pub fn as_slice(&self) -> &[VarId]
        ensures { result.now ≡ self.now }
    {
        self.list.as_slice()
    }

    /// How many parts there are.
    pub fn len(&self) -> usize
        ensures { result ≡ length self.now }
    {
        self.list.len()
    }

    /// Whether there is no part.
    pub fn is_empty(&self) -> bool
        ensures { IsTrue result ↔ (self.now ≡ []) }
    {
        self.list.is_empty()
    }

    /// The end of the parts of a part's variable: 1 more than the index of the last one, or 0 if there is none.
    pub fn end(&self, part: &VarId) -> usize
        ensures { EndAt self.now (key_of part.now) (length self.now) result }
    {
        end_of(&self.ends, part)
    }

    /// The end of the parts of the variable of the part at an index that are before it.
    pub fn end_before(&self, i: usize) -> usize
        ensures { (w : VarId) → slice_get self.now i ≡ Some w → EndAt self.now (key_of w) i result }
    {
        at(self.before.as_slice(), i)
    }
}

fn at(before: &[usize], i: usize) -> usize
    ensures { result ≡ slice_index before.now i }
{
    if i < before.len() { before[i] } else { 0 }
}

/// The chains of a list.
#[derive(Drop)]
struct Chains {
    ends: HashMap<Key, usize>,
    before: Vec<usize>,
}

/// The chains of the parts of each variable.
fn chains_of(alloc: Global, parts: &[VarId]) -> Result<Chains, AllocError>
    ensures { IfOk result (λ c. AreChained parts.now (length parts.now) c.ends c.before.items) }
{
    let mut chains = Chains {
        ends: HashMap::new(alloc),
        before: Vec::new(alloc),
    };
    for (i, part) in parts.iter().enumerate() {
        chains.add(i, part)?;
    }
    Ok(chains)
}

impl Chains {
    /// Adds the part at an index, the one after those that are chained.
    fn add(&mut self, i: usize, part: &VarId) -> Result<(), AllocError>
        requires { i < 18446744073709551615 }
        ensures { OnOk result ((parts : List VarId) → slice_get parts i ≡ Some part.now →
            AreChained parts i self.old.ends self.old.before.items →
            AreChained parts (i + 1) self.new.ends self.new.before.items) }
    {
        let end = end_of(&self.ends, part);
        self.before.push(end)?;
        self.ends.insert(key_of(part), i + 1)?;
        Ok(())
    }
}

/// The end of the parts of a part's variable, or 0.
fn end_of(ends: &HashMap<Key, usize>, part: &VarId) -> usize
    ensures { result ≡ or_zero (get is_key ends.now (key_of part.now)) }
{
    match ends.get(&key_of(part)) {
        None => 0,
        Some(end) => *end,
    }
}

fn key_of(part: &VarId) -> Key
    ensures { result ≡ key_of part.now }
{
    let inlined_at = match part.inlined_at {
        None => None,
        Some(node) => Some(node.number()),
    };
    (part.node.number(), inlined_at)
}
