//! Laws about types, each the contract of a function that does nothing.

ghost use Rattle.std.specs.Prelude.{ℕ, suc, List};
ghost use Rattle.type_nodes.specs.declared.shape.Shape.{Shape};
ghost use Rattle.type_nodes.specs.declared.shape.Walk.{Walk};
ghost use Rattle.type_nodes.specs.Standing.{Step, Steps, Stands};

/// No walk from a type that stands comes back to it, neither by value nor by name.
pub fn no_walk_comes_round()
    ensures { (types : List Shape) (walk : Walk) (steps n : ℕ) → Stands types n
        → Steps (Step walk types) (suc steps) n n → ⊥ }
{}
