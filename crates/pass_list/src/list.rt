//! Lists of passes without duplicates.

ghost use Rattle.std.specs.Prelude.{◌≡◌, ◌↔◌, ◌∷◌, ◌++◌, [], List, IsTrue, Some, Contains};
ghost use Rattle.pass_list.specs.declared.kind.PassKind.{PassKind};
ghost use Rattle.pass_list.specs.Names.{AreDistinct, STANDARD};

use crate::kind::PassKind;
use std::marker::Model;

/// The number of passes.
const PASSES: usize = 5;

/// Passes in the order in which they run, each at most once. Its model is the list of them.
#[derive(Debug, Drop)]
pub struct PassList {
    /// The passes, followed by unused elements.
    passes: [PassKind; 5],
    /// The number of passes in the list.
    len: usize,
}

impl Model for PassList {
    ghost use Rattle.std.specs.Prelude.{◌≡◌, ◌≤◌, List, take, length};
    ghost use Rattle.pass_list.specs.declared.kind.PassKind.{PassKind};
    ghost use Rattle.pass_list.specs.Names.{AreDistinct};

    ghost Value = { List PassKind };

    ghost view = { λ l. take l.len l.passes };

    ghost invariant = { λ l. (length l.passes ≡ 5) × (l.len ≤ 5) × AreDistinct (take l.len l.passes) };
}

impl PassList {
    /// The empty list.
    pub fn empty() -> PassList
        ensures { result ≡ [] }
    {
        PassList {
            passes: [PassKind::Copy; PASSES],
            len: 0,
        }
    }

    /// The default list, all passes: copy, remat, spill, dead, fold.
    pub fn standard() -> PassList
        ensures { result ≡ STANDARD }
    {
        PassList {
            passes: [
                PassKind::Copy,
                PassKind::Remat,
                PassKind::Spill,
                PassKind::Dead,
                PassKind::Fold,
            ],
            len: PASSES,
        }
    }

    /// The passes.
    pub fn as_slice(&self) -> &[PassKind]
        ensures value { result.now ≡ self.now }
        ensures distinct { AreDistinct self.now }
    {
        &self.passes[..self.len]
    }

    /// The list with a pass appended; `None` if it is in the list already.
    pub fn with(&self, pass: PassKind) -> Option<PassList>
        ensures { (whole : List PassKind) →
            (result ≡ Some whole) ↔ ((whole ≡ self.now ++ pass ∷ []) × AreDistinct whole) }
    {
        if has(self.as_slice(), pass) {
            return None;
        }
        let mut passes = self.passes;
        passes[self.len] = pass;
        Some(PassList {
            passes,
            len: self.len + 1,
        })
    }
}

/// Whether a pass is in a list.
fn has(passes: &[PassKind], pass: PassKind) -> bool
    ensures { IsTrue result ↔ Contains passes.now pass }
{
    for other in passes {
        if *other == pass {
            return true;
        }
    }
    false
}
