//! Theorems on counts and the headline. Each is the contract of an empty function.

ghost use Rattle.selftest_proof.specs.Known.{ReadsAreKnown};
ghost use Rattle.selftest_proof.specs.Together.{RunsGoTogether};

use sem_machine::laws::LocationLists;

/// If the headline holds of an image of the code, the location lists have only places of which it speaks, and the
/// source has debug values only for the given parts of variables, then a run reads no more values than are known.
pub fn reads_are_known<L: LocationLists>()
    ensures { ReadsAreKnown L.gives }
{}

/// If the headline holds of an image of the code, the code has no calls and the source no frame fault, then both runs
/// stay in lockstep, unless the source makes 2^64 - 1 steps or more.
pub fn runs_go_together<L: LocationLists>()
    ensures { RunsGoTogether L.gives }
{}
