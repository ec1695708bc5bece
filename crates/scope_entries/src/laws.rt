//! Laws about what stands inside functions, each the contract of a function that does nothing.

ghost use Rattle.scope_entries.specs.Laws.{ScopesStandInScopes};

/// Each scope that is told begins right under the next one around it that is told, and ends behind all that stands in
/// it.
pub fn scopes_stand_in_scopes()
    ensures { ScopesStandInScopes }
{}
