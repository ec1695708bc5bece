//! The law of chains.

ghost use Rattle.mir_substitution.specs.Chain.{ResolveIsEnd};

/// A pair resolves to the end of its chain: `Substitutions::resolve` returns a pair exactly if the chain from
/// the given one ends at it.
pub fn resolve_is_end()
    ensures { ResolveIsEnd }
{}
