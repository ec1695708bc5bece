//! Laws of agreement of two states: each is the contract of a function with an empty body.

ghost use Rattle.std.specs.Prelude.{ℕ};
ghost use Rattle.sem_simulation.specs.rv64_instr.declared.place.Place.{Place};
ghost use Rattle.sem_agreement.specs.Laws.{ItemsAreAlike};

/// An agreement of two states.
pub trait Likeness {
    /// The locations that agree.
    ghost held: { Place → Type 0 };
    /// The debug instruction numbers under which the second may have any values.
    ghost free: { ℕ → Type 0 };
}

/// Two states that agree on some places agree after an item that depends on these places alone, if the second has no
/// values of numbers and debug values but the first's and those of free numbers.
pub fn items_are_alike<L: Likeness>()
    ensures { ItemsAreAlike L.held L.free }
{}
