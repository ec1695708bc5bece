//! Laws about the trees of units, each the contract of a function that does nothing.

ghost use Rattle.std.specs.Prelude.{◌≡◌, ◌∷◌, ◌++◌, ℕ, List, Some, false, drop, All, Contains};
ghost use Rattle.std.specs.List.{slice_get};
ghost use Rattle.dwarf_entry.specs.declared.tree.TreeItem.{TreeItem};
ghost use Rattle.dwarf_entry.specs.Entries.{RefersWithin};
ghost use Rattle.type_nodes.specs.declared.shape.Shape.{Shape};
ghost use Rattle.type_nodes.specs.Standing.{Stands};
ghost use Rattle.type_entries.specs.Entries.{is_known, item_of, shape_items};
ghost use Rattle.type_entries.specs.Types.{unknown_item};
ghost use Rattle.typed_unit.specs.declared.content.Inner.TheVariants.{Variable};
ghost use Rattle.typed_unit.specs.declared.content.TypedFunction.{TypedFunction};
ghost use Rattle.typed_unit.specs.declared.content.TypedVariable.{TypedVariable};
ghost use Rattle.typed_unit.specs.declared.content.TypedUnit.{TypedUnit};
ghost use Rattle.typed_unit.specs.Unit.{IsTypedTree};
ghost use Rattle.typed_unit.specs.Typed.{HasType, HasTypeTag};

/// The references of a unit's tree are to its items.
pub fn references_are_within()
    ensures { (shapes : List Shape) (u : TypedUnit) (tree : List TreeItem) → IsTypedTree shapes u tree
        → RefersWithin tree }
{}

/// Each parameter and each variable of a unit's tree has a type.
pub fn variables_have_types()
    ensures { (shapes : List Shape) (u : TypedUnit) (tree : List TreeItem) → IsTypedTree shapes u tree
        → All HasTypeTag shapes → All HasType tree }
{}

/// What a reference to a type that stands leads to is the type's own entry. Where the type of a variable can't be told,
/// what is told in its place is an unknown type.
pub fn types_are_told()
    ensures own { (shapes : List Shape) (u : TypedUnit) (tree : List TreeItem) (is : IsTypedTree shapes u tree) (n : ℕ)
        (s : Shape) → slice_get shapes n ≡ Some s → Stands shapes n
        → (rest : List TreeItem) × (drop (item_of is.table n) tree ≡ shape_items is.table s ++ rest) }
    ensures unknown { (shapes : List Shape) (u : TypedUnit) (tree : List TreeItem) (is : IsTypedTree shapes u tree)
        (f : TypedFunction) (v : TypedVariable) → Contains u.functions f → Contains f.inside (Variable v)
        → is_known is.table.stands.items is.table.sizes.items v.base ≡ false
        → (rest : List TreeItem) × (drop is.table.unknown tree ≡ unknown_item ∷ rest) }
{}
