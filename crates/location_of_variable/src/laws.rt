//! The law about a variable's location, the contract of a function that does nothing.

ghost use Rattle.location_of_variable.specs.Gives.{WantedLocationsGiveParts};

/// The location required for a variable has for each of its parts the place required for the part.
pub fn wanted_locations_give_parts()
    ensures { WantedLocationsGiveParts }
{}
