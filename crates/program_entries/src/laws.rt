//! Laws about the entries of programs, each the contract of a function that does nothing.

ghost use Rattle.std.specs.Prelude.{All};
ghost use Rattle.read_debug_nodes.specs.Maps.{DebugMaps};
ghost use Rattle.read_types.specs.Types.{types_of};
ghost use Rattle.typed_unit.specs.Typed.{HasTypeTag};

/// The tags of a program's types are none of a parameter or a variable.
pub fn types_have_tags()
    ensures { (m : DebugMaps) → All HasTypeTag (types_of m) }
{}
