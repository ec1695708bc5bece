//! Theorems on runs of the simulator. Each is the contract of an empty function.

ghost use Rattle.sim_proof.specs.Headline.{RunsMeetTheHeadline};
ghost use Rattle.sim_proof.specs.Runs.{RunsAreTheMachines, StepsAreTheMachines};

use sem_machine::laws::LocationLists;
use sim_machine::answers::CallAnswers;

/// A step of the simulator that continues is a step of the machine semantics on each image of the code. If it is a
/// call, its answer is the first of the script.
pub fn steps_are_the_machines<A: CallAnswers>(answers: &A)
    ensures { StepsAreTheMachines (A.gives answers.now) }
{}

/// A run of the simulator is a run of the machine semantics on each image of the code, with the answers to its calls as
/// the script.
pub fn runs_are_the_machines<A: CallAnswers>(answers: &A)
    ensures { RunsAreTheMachines (A.gives answers.now) }
{}

/// If the headline holds of an image of the code, then each run of the simulator, with answers that calls may have,
/// is matched with a run of the source, and the places in the location lists at the run's program counter hold the
/// newest assignments, unless the source stops on a frame fault before.
pub fn runs_meet_the_headline<A: CallAnswers, L: LocationLists>(answers: &A)
    ensures { RunsMeetTheHeadline (A.gives answers.now) L.gives }
{}
