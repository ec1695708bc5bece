//! Simulation laws: each is the contract of a function with an empty body. A law about every relation of states is
//! about that of a type parameter.

ghost use Rattle.std.specs.Prelude.{Option};
ghost use Rattle.sem_mir.specs.mir_func.declared.position.Pos.{Pos};
ghost use Rattle.sem_mir.specs.State.{State};
ghost use Rattle.sem_simulation.specs.Refinement.{RefinementFollows};
ghost use Rattle.sem_simulation.specs.MatchStates.{MatchStates};
ghost use Rattle.sem_simulation.specs.Words.{WordsFollow};
ghost use Rattle.sem_simulation.specs.Added.{AddedMatchStates, AddedFollows};
ghost use Rattle.sem_simulation.specs.InPlace.{InPlaceFollows};
ghost use Rattle.sem_simulation.specs.Rewired.{RewiredMatchStates, RewiredFollows};

/// A relation of two runs' states.
pub trait Refinement {
    /// How one program's state is related to the other's, right after the last station that both matched; the source
    /// may still be at the position.
    ghost related: { Option Pos → State → State → Type 0 };
}

/// If a program's run refines the source's, so does that of a program that refines it.
pub fn refinement_follows<R: Refinement>()
    ensures { RefinementFollows R.related }
{}

/// The positions of a function after its prologue.
pub trait Inside {
    /// Whether a position is one.
    ghost inner: { Pos → Type 0 };
}

/// A run that refines the source's at instructions, by the first arrival at a position, refines it at machine words.
pub fn words_follow<I: Inside>()
    ensures { WordsFollow I.inner }
{}

/// Added code: before code and after it, and at the start of the function.
pub trait CodeAddition {
    /// The matching relation of the runs without the code and with it.
    ghost match_states: { AddedMatchStates };
}

/// If a program's run refines the source's, so does that of the program with added code, with instructions or block
/// ends too as stations.
pub fn added_follows<A: CodeAddition>()
    ensures { AddedFollows A.match_states }
{}

/// A change of blocks in place, by a pass that keeps, rewrites and deletes code.
pub trait BlockChange {
    /// The matching relation of the runs before and after the change.
    ghost match_states: { MatchStates };
}

/// If a program's run refines the source's, so does that of the program changed in place, with instructions or block
/// ends too as stations.
pub fn in_place_follows<C: BlockChange>()
    ensures { InPlaceFollows C.match_states }
{}

/// Bypassed blocks and rewritten block ends.
pub trait Rewiring {
    /// The matching relation of the runs before and after the change.
    ghost match_states: { RewiredMatchStates };
}

/// If a program's run refines the source's with block ends as stations, that of the rewired program does with
/// instructions as stations.
pub fn rewired_follows<W: Rewiring>()
    ensures { RewiredFollows W.match_states }
{}
