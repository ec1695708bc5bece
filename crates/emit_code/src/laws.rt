//! Laws about layouts, each the contract of a function that does nothing.

ghost use Rattle.std.specs.Prelude.{◌≡◌, ℕ, Bool};
ghost use Rattle.mir_func.specs.declared.position.Pos.{Pos};
ghost use Rattle.mir_func.specs.Function.{FramedFunction};
ghost use Rattle.emit_code.specs.BranchRelaxation.{IsSettled};

/// The least closed layout is unique: at most one set of long branches for a function and its first address.
pub fn one_layout()
    ensures { (f : FramedFunction) (base : ℕ) (long other : Pos → Bool) →
        IsSettled (record { framed = f; base = base; long = long }) →
        IsSettled (record { framed = f; base = base; long = other }) → (p : Pos) → long p ≡ other p }
{}
