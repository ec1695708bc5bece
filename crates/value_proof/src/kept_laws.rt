//! Laws about values that stay in their location, each the contract of a function that does nothing.

ghost use Rattle.value_proof.specs.Kept.{KeptValuesSit, KeptValuesAreWanted};

/// While a place keeps the value that a debug value assigned, it holds the variable's value.
pub fn kept_values_sit()
    ensures { KeptValuesSit }
{}

/// While a place keeps the value that a debug value assigned, it can't be that no location is required for the part.
pub fn kept_values_are_wanted()
    ensures { KeptValuesAreWanted }
{}
