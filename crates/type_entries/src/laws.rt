//! Laws about the entries of types, each the contract of a function that does nothing.

ghost use Rattle.std.specs.Prelude.{◌≡◌, ◌++◌, ◌-◌, ℕ, List, Some, drop};
ghost use Rattle.std.specs.List.{slice_get};
ghost use Rattle.dwarf_entry.specs.declared.tree.TreeItem.{TreeItem};
ghost use Rattle.type_nodes.specs.declared.shape.Shape.{Shape};
ghost use Rattle.type_nodes.specs.Standing.{Stands};
ghost use Rattle.type_entries.specs.declared.table.TypeTable.{TypeTable};
ghost use Rattle.type_entries.specs.Entries.{item_of, shape_items};
ghost use Rattle.type_entries.specs.Types.{IsTable, items_from};

/// What a reference to a type that stands names is the type's own entry.
pub fn references_are_right()
    ensures { (first : ℕ) (t : TypeTable) (n : ℕ) (s : Shape) → IsTable first t → slice_get t.types n ≡ Some s
        → Stands t.types n
        → (rest : List TreeItem) × (drop (item_of t n - first) (items_from t 0 t.types) ≡ shape_items t s ++ rest) }
{}
