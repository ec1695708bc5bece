//! Sets of kills.

ghost use Rattle.std.specs.Prelude.{◌≡◌, ◌||◌, IfOk, OnOk, false, not};
ghost use Rattle.fold_undef.specs.declared.kill.Kill.{Kill};
ghost use Rattle.fold_undef.specs.Kill.{is_same_kill};
ghost use Rattle.fold_undef.specs.steps.Seen.{key_of, fragment_key, is_seen};

use crate::kill::Kill;
use mir_func::variable::{Fragment, VarId};
use std::alloc::{AllocError, Global};
use std::collections::HashSet;

/// A part of a variable: its node, the node that it is inlined at, and its first byte and how many bytes it has.
type PartKey = ((u32, Option<u32>), Option<(u32, u32)>);

/// A set of kills.
#[derive(Drop)]
pub struct Seen {
    pub parts: HashSet<PartKey>,
    pub numbers: HashSet<u32>,
}

impl Seen {
    /// The empty set. It takes no memory.
    pub fn new(alloc: Global) -> Seen
        ensures { (k : Kill) → is_seen result.parts result.numbers k ≡ false }
    {
        Seen {
            parts: HashSet::new(alloc),
            numbers: HashSet::new(alloc),
        }
    }

    /// Adds a kill, and returns whether none of the same variable fragment or number was there.
    pub fn add(&mut self, kill: &Kill) -> Result<bool, AllocError>
        ensures new { IfOk result (λ z. z ≡ not (is_seen self.old.parts self.old.numbers kill.now)) }
        ensures seen { OnOk result ((k : Kill) → is_seen self.new.parts self.new.numbers k
            ≡ (is_same_kill kill.now k || is_seen self.old.parts self.old.numbers k)) }
    {
        match kill {
            Kill::Part(variable, _) => {
                let new = self.parts.insert(key_of(variable))?;
                Ok(new)
            }
            Kill::Number(number) => {
                let new = self.numbers.insert(number.number())?;
                Ok(new)
            }
        }
    }
}

fn key_of(v: &VarId) -> PartKey
    ensures { result ≡ key_of v.now }
{
    let inlined_at = match v.inlined_at {
        Some(node) => Some(node.number()),
        None => None,
    };
    ((v.node.number(), inlined_at), fragment_key(v.fragment))
}

fn fragment_key(part: Option<Fragment>) -> Option<(u32, u32)>
    ensures { result ≡ fragment_key part }
{
    match part {
        Some(f) => Some((f.offset(), f.length())),
        None => None,
    }
}
