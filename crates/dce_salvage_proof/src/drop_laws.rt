//! The law of a dropped number, as the contract of a function with an empty body.

ghost use Rattle.dce_salvage_proof.specs.DropLaws.{NumberGoesNowhere};

/// Code loses its number, which then has no value: this preserves the weak simulation.
pub fn number_goes_nowhere()
    ensures { NumberGoesNowhere }
{}
