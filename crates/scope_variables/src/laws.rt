//! Laws about the variables of scopes, each the contract of a function that does nothing.

ghost use Rattle.scope_variables.specs.Laws.{ScopesHaveTheirVariables, VariablesStandInOrder};

/// A scope has exactly the variables that are declared in it, whether they are marked or not.
pub fn scopes_have_their_variables()
    ensures { ScopesHaveTheirVariables }
{}

/// The variables of a scope stand in order, each once: parameters by their number, and behind them the others by their
/// node.
pub fn variables_stand_in_order()
    ensures { VariablesStandInOrder }
{}
