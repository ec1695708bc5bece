//! Theorem on the text of an output: the contract of an empty function.

ghost use Rattle.std.specs.Prelude.{◌≡◌, ℕ, List, Option};
ghost use Rattle.listing_text.specs.declared.output.Output.{Output};
ghost use Rattle.listing_text.specs.Shown.{Shows};

/// A text is the text of at most one printable output.
pub fn one_reading()
    ensures { (inlined : ℕ → Option ℕ) (text : List ℕ) (o p : Output) → Shows inlined text o → Shows inlined text p →
        o ≡ p }
{}
