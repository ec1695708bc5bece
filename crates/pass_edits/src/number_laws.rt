//! Laws of salvaged numbers: each is the contract of a function with an empty body.

ghost use Rattle.std.specs.Prelude.{ℕ};
ghost use Rattle.pass_edits.specs.NumberLaws.{NumberGoesToCode, NumberGoesToPhi};

/// Numbers to which no debug value refers meanwhile, so that their values may differ.
pub trait FreeNumbers {
    /// Whether a number is free.
    ghost free: { ℕ → Type 0 };
}

/// In a sound function the number of a copy of a register other than x2 is substituted by an operand of code above
/// it: this preserves the weak simulation.
pub fn number_goes_to_code<F: FreeNumbers>()
    ensures { NumberGoesToCode F.free }
{}

/// In a sound function the number of a copy of a register other than x2 becomes that of a DBG_PHI right before it:
/// this preserves the weak simulation.
pub fn number_goes_to_phi()
    ensures { NumberGoesToPhi }
{}
