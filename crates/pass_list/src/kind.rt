//! The passes and their names.

ghost use Rattle.std.specs.Prelude.{◌≡◌, ◌↔◌, IsTrue, Some};
ghost use Rattle.pass_list.specs.Names.{name_of};

/// A pass that the program can run.
#[derive(Clone, Copy, Debug, PartialEq, Eq)]
pub enum PassKind {
    /// Copy propagation; copies that change nothing are removed.
    Copy,
    /// Rematerialization: constants are set again instead of being copied or loaded from a slot.
    Remat,
    /// Spilling: reserved registers are moved to slots.
    Spill,
    /// Dead code elimination.
    Dead,
    /// Branch folding: branches to blocks that only jump go to the final target at once.
    Fold,
}

/// The pass of this name, if there is one.
pub fn named(name: &str) -> Option<PassKind>
    ensures { (pass : PassKind) → (result ≡ Some pass) ↔ (name.now ≡ name_of pass) }
{
    if is_same(name, "copy") {
        Some(PassKind::Copy)
    } else if is_same(name, "remat") {
        Some(PassKind::Remat)
    } else if is_same(name, "spill") {
        Some(PassKind::Spill)
    } else if is_same(name, "dead") {
        Some(PassKind::Dead)
    } else if is_same(name, "fold") {
        Some(PassKind::Fold)
    } else {
        None
    }
}

/// Whether two texts are equal.
pub fn is_same(text: &str, wanted: &str) -> bool
    ensures { IsTrue result ↔ (text.now ≡ wanted.now) }
{
    text == wanted
}
