//! Substitutions, with the ends of their chains.

ghost use Rattle.std.specs.Prelude.{◌≡◌, [], IfOk, OnOk, OnErr};
ghost use Rattle.mir_func.specs.Resolve.{resolve};
ghost use Rattle.mir_substitution.specs.Added.{added};

use crate::forest::{Forest, ends_at, find, grow};
use mir_func::debug_substitution::{DebugSubstitution, OperandPair};
use std::alloc::{AllocError, Global};
use std::collections::HashMap;
use std::marker::Model;

/// Substitutions of debug instruction numbers, in the order in which they were added (LLVM:
/// `debugValueSubstitutions`). No two have the same source. A contract sees them as the list of the entries.
#[derive(Drop)]
pub struct Substitutions {
    entries: Vec<DebugSubstitution>,
    /// The ends of all chains.
    forest: Forest,
}

impl Model for Substitutions {
    ghost use Rattle.std.specs.Prelude.{List};
    ghost use Rattle.mir_func.specs.declared.debug_substitution.DebugSubstitution.{DebugSubstitution};

    ghost Value = { List DebugSubstitution };

    ghost use Rattle.mir_substitution.specs.Forest.{AreEnds, node_of};

    ghost view = { λ s. s.entries.items };

    ghost invariant = { λ s. AreEnds s.entries.items (node_of s.forest) };
}

impl Substitutions {
    /// No substitution. It takes no memory.
    pub fn new(alloc: Global) -> Substitutions
        ensures { result ≡ [] }
    {
        Substitutions {
            entries: Vec::new(alloc),
            forest: HashMap::new(alloc),
        }
    }

    /// The entries, in the order in which they were added.
    pub fn entries(&self) -> &[DebugSubstitution]
        ensures { result.now ≡ self.now }
    {
        self.entries.as_slice()
    }

    /// Adds an entry at the end, unless its source has one already. That changes nothing, and neither does a call for
    /// which memory runs out.
    pub fn add(&mut self, e: DebugSubstitution) -> Result<(), AllocError>
        ensures ok { OnOk result (self.new ≡ added self.old e) }
        ensures err { OnErr result (self.new ≡ self.old) }
    {
        let source = find(self.entries.as_slice(), &self.forest, e.src);
        if !ends_at(&source, &e.src) {
            return Ok(());
        }
        self.entries.reserve(1)?;
        self.forest.reserve(2)?;
        grow(self.entries.as_slice(), &mut self.forest, &e, &source);
        self.entries.push(e)?;
        Ok(())
    }

    /// The same entries in the same order.
    pub fn copy(&self) -> Result<Substitutions, AllocError>
        ensures { IfOk result (λ copied. copied ≡ self.now) }
    {
        Ok(Substitutions {
            entries: Vec::from_slice(*self.entries.allocator(), self.entries.as_slice())?,
            forest: self.forest.clone()?,
        })
    }

    /// The pair that a pair resolves to: the end of its chain. There is none exactly if the chain is cyclic, or
    /// has an entry for a part of a register.
    pub fn resolve(&self, pair: OperandPair) -> Option<OperandPair>
        ensures { result ≡ resolve self.now pair }
    {
        find(self.entries.as_slice(), &self.forest, pair).end
    }
}
