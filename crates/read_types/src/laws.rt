//! Laws about the types of a program, each the contract of a function that does nothing.

ghost use Rattle.std.specs.Prelude.{◌≡◌, ℕ, List, true};
ghost use Rattle.std.specs.List.{slice_get};
ghost use Rattle.std.specs.Option.{IsSome};
ghost use Rattle.read_debug_nodes.specs.Maps.{DebugMaps};
ghost use Rattle.read_types.specs.Indices.{Ascends, index_in};
ghost use Rattle.read_types.specs.Shapes.{shape_at};
ghost use Rattle.read_types.specs.Types.{is_type, type_nodes, types_of};

/// The nodes of types ascend.
pub fn type_nodes_ascend()
    ensures { (m : DebugMaps) → Ascends (type_nodes m) }
{}

/// The type at the index of a type node is what the node says.
pub fn types_are_their_nodes()
    ensures { (m : DebugMaps) (n : ℕ) → is_type m n ≡ true
        → slice_get (types_of m) (index_in (type_nodes m) n) ≡ shape_at m (type_nodes m) n }
{}

/// Whether a node is a type doesn't depend on which nodes are types.
pub fn types_are_types()
    ensures { (m : DebugMaps) (nodes : List ℕ) (n : ℕ) → is_type m n ≡ true → IsSome (shape_at m nodes n) }
{}
