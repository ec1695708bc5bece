//! Laws of the registers live into the function: each is the contract of a function with an empty body.

ghost use Rattle.spill_proof.specs.Alive.{AliveAlike, AliveBare};

/// A test of which registers are live into a function is right for the function without debug items.
pub fn alive_bare()
    ensures { AliveBare }
{}

/// A test of which registers are live into a function is right for every function with the same code.
pub fn alive_alike()
    ensures { AliveAlike }
{}
