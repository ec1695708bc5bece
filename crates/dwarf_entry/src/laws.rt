//! Laws about the two sections of a tree, each the contract of a function that does nothing.

ghost use Rattle.std.specs.Prelude.{◌≡◌, ℕ, List};
ghost use Rattle.dwarf_entry.specs.declared.tree.TreeItem.{TreeItem};
ghost use Rattle.dwarf_entry.specs.Grammar.{AreSections};

/// Two sections are the encoding of at most one tree.
pub fn one_tree()
    ensures { (debug_abbrev debug_info : List ℕ) (a b : List TreeItem)
        → AreSections debug_abbrev debug_info a → AreSections debug_abbrev debug_info b → a ≡ b }
{}
