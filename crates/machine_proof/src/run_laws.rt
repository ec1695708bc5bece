//! Laws about the machine's runs, each the contract of a function that does nothing.

ghost use Rattle.machine_proof.specs.Runs.{LaidCodeMeetsTheHeadline};

use sem_machine::laws::LocationLists;

/// The image that a function with its frame is laid in satisfies the `Headline` of a source, if its origins satisfy
/// `ComesFrom`, its runs simulate the source's (`RunsBeside`), and lists name only places with the value.
pub fn laid_code_meets_the_headline<L: LocationLists>()
    ensures { LaidCodeMeetsTheHeadline L.gives }
{}
